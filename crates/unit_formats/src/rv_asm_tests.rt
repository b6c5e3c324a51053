//! Texts that are long, and addresses that go around.

use rv_asm::{Equate, assemble};
use std::alloc::Global;
use std::test::Fail;
use wedge_base::{Bytes, Items, NoMemory};

const BASE: u32 = 0x1_0000;

fn equates(alloc: Global, names: &[(&str, u32)]) -> Result<Vec<Equate>, NoMemory> {
    let mut list = Vec::new(alloc);
    for (name, value) in names {
        let name = Bytes::from_slice(alloc, name.as_bytes())?;
        list.push(Equate {
            name,
            value: *value,
        })?;
    }
    Ok(list)
}

/// The words of a text at an address, with these equates.
fn words_of(
    alloc: Global,
    text: &str,
    base: u32,
    names: &[(&str, u32)],
) -> Result<Items<u32>, Fail> {
    let names = equates(alloc, names)?;
    let found = assemble(alloc, text, base, &names)?;
    Ok(found.words)
}

#[test]
fn addresses_go_around(rt: HostRuntime) -> Result<(), Fail> {
    let text = "j end\nnop\nend:\nla a0, end\n";
    let found = words_of(rt.alloc(), text, 0xffff_fff8, &[])?;
    let words: [u32; 4] = [0x0080_006f, 0x0000_0013, 0x0000_0537, 0x0005_0513];
    assert!(rt; found.as_slice() == words.as_slice());
    Ok(())
}

/// A text of a hundred thousand lines: 50,000 labels, and after each a jump to it.
fn long_text(alloc: Global) -> Result<String, Fail> {
    let mut text = String::new(alloc);
    for n in 0..50_000u32 {
        let line = format!(in alloc; "label{n}:\nj label{n} # around\n")?;
        text.push_str(line.as_str())?;
    }
    Ok(text)
}

#[test]
fn a_hundred_thousand_lines(rt: HostRuntime) -> Result<(), Fail> {
    let text = long_text(rt.alloc())?;
    let found = words_of(rt.alloc(), text.as_str(), BASE, &[])?;
    assert!(rt; found.as_slice().len() == 50_000);
    assert!(rt; found.as_slice().last() == Some(&0x0000_006f));
    Ok(())
}

/// The first of two equates of a name counts.
#[test]
fn an_equate_counts_once(rt: HostRuntime) -> Result<(), Fail> {
    let names = [("one", 1), ("one", 2)];
    let found = words_of(rt.alloc(), "addi t0, t1, one", BASE, &names)?;
    assert!(rt; found.as_slice() == [0x0013_0293].as_slice());
    Ok(())
}
