use crate::word::{next, word_of};
use crate::{generated, objects_are_spelled, words_are_operations};
use std::alloc::AllocError;

#[test]
fn words_of_small_seeds(rt: HostRuntime) {
    assert!(rt; word_of(next(1)) == 0x01b7_571b);
    assert!(rt; word_of(next(0)) == 0x02f6_d7b3);
}

#[test]
fn the_laws_can_be_called(_rt: HostRuntime) {
    words_are_operations();
    objects_are_spelled();
}

#[test]
fn an_object_of_one_word(rt: HostRuntime) -> Result<(), AllocError> {
    let bytes = generated(rt.alloc(), 1, 1)?;
    assert!(rt; bytes.len() == 480);
    Ok(())
}
