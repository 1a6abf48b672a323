use inner_machines::{
    calls_share_pages, least_is_free, others_stay, outer_stays, own_calls_decide, work_is_paid,
};

#[test]
fn laws_of_calls() {
    others_stay();
    outer_stays();
    least_is_free();
    own_calls_decide();
    calls_share_pages();
    work_is_paid();
}
