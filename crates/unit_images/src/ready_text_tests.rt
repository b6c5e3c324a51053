//! How much room a word of the decoded text takes.

use rv_isa::Instr;

#[test]
fn a_word_takes_12_bytes(rt: HostRuntime) {
    assert!(&rt; size_of::<Instr>() == 8);
    assert!(&rt; size_of::<Option<Instr>>() == 12);
}
