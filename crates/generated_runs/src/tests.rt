use crate::{
    generated_computes, generated_halts, generated_has_no_fault, generated_is_given,
    generated_is_lifted, generated_is_lowered, nothing_is_listed, texts_are_operations,
    words_are_instructions,
};

#[test]
fn the_laws_can_be_called(_rt: HostRuntime) {
    texts_are_operations();
    generated_is_given();
    nothing_is_listed();
    generated_is_lifted();
    words_are_instructions();
    generated_is_lowered();
    generated_has_no_fault();
    generated_halts();
    generated_computes();
}
