//! Reports that were written by hand.

use report_text::report;
use std::alloc::Global;
use std::test::Fail;
use wedge_base::{
    ActorLine, ActorName, Bytes, Denial, DenialAt, End, FdBits, FdNo, Item, Items, NoMemory,
    Outcome, PathText, Right, StreamLine, TagNo, is_canonical,
};

/// The line of the root, with the compartment `main`.
fn root_line(
    alloc: Global,
    end: End,
    pc: u32,
    fuel: u32,
    denials: Vec<DenialAt>,
) -> Result<ActorLine, NoMemory> {
    Ok(ActorLine {
        name: ActorName::root(alloc)?,
        compartment: Bytes::from_slice(alloc, b"main")?,
        end,
        pc,
        fuel,
        denials: Items::new(denials),
    })
}

/// The root alone, with the compartment `main`.
fn root_alone(
    alloc: Global,
    end: End,
    pc: u32,
    fuel: u32,
    denials: Vec<DenialAt>,
) -> Result<Vec<ActorLine>, NoMemory> {
    let line = root_line(alloc, end, pc, fuel, denials)?;
    Ok(vec![in alloc; line]?)
}

fn stream(alloc: Global, number: u32, label: &[u8], bytes: &[u8]) -> Result<StreamLine, NoMemory> {
    Ok(StreamLine {
        number: FdNo(number),
        label: Bytes::from_slice(alloc, label)?,
        bytes: Bytes::from_slice(alloc, bytes)?,
    })
}

/// One stream alone.
fn stream_alone(
    alloc: Global,
    number: u32,
    label: &[u8],
    bytes: &[u8],
) -> Result<Vec<StreamLine>, NoMemory> {
    let line = stream(alloc, number, label, bytes)?;
    Ok(vec![in alloc; line]?)
}

/// Whether the report of these actors and streams is a text.
fn is_reported(
    alloc: Global,
    actors: Vec<ActorLine>,
    streams: Vec<StreamLine>,
    text: &[u8],
) -> Result<bool, NoMemory> {
    let outcome = Outcome {
        actors: Items::new(actors),
        streams: Items::new(streams),
    };
    Ok(report(alloc, &outcome)?.as_slice() == text)
}

#[test]
fn an_actor_and_a_stream(rt: HostRuntime) -> Result<(), Fail> {
    let alloc = rt.alloc();
    let actors = root_alone(alloc, End::Exited(0), 0x10028, 87, Vec::new(alloc))?;
    let streams = stream_alone(alloc, 0, b"out", b"ok")?;
    let want = b"actor 0 main exited 0 pc 00010028 fuel 87\nstream 0 out \"ok\"\n";
    assert!(rt; is_reported(alloc, actors, streams, want)?);
    Ok(())
}

#[test]
fn nothing_to_tell(rt: HostRuntime) -> Result<(), Fail> {
    let alloc = rt.alloc();
    assert!(rt; is_reported(alloc, Vec::new(alloc), Vec::new(alloc), b"")?);
    Ok(())
}

#[rattlefmt::skip]
static ENDS: [(End, &str); 10] = [
    (End::Exited(u32::MAX), "exited 4294967295"),
    (End::Denied, "denied"),
    (End::Misaligned, "misaligned"),
    (End::JumpMisaligned, "jump-misaligned"),
    (End::BadInstruction, "bad-instruction"),
    (End::FetchFault, "fetch-fault"),
    (End::TextStore, "text-store"),
    (End::Unmapped, "unmapped"),
    (End::Break, "break"),
    (End::FuelOut, "fuel-out"),
];

/// Whether an end is reported by this word.
fn is_end(alloc: Global, end: End, word: &str) -> Result<bool, Fail> {
    let want = format!(in alloc; "actor 0 main {word} pc fedcba98 fuel 16777216\n")?;
    let actors = root_alone(alloc, end, 0xfedcba98, 16777216, Vec::new(alloc))?;
    Ok(is_reported(alloc, actors, Vec::new(alloc), want.as_bytes())?)
}

#[test]
fn every_end(rt: HostRuntime) -> Result<(), Fail> {
    for (end, word) in &ENDS {
        assert!(rt; is_end(rt.alloc(), *end, word)?, "{word}");
    }
    Ok(())
}

/// The root alone, which was denied this.
fn denied_alone(alloc: Global, denial: Denial) -> Result<Vec<ActorLine>, NoMemory> {
    let denials = vec![in alloc;
        DenialAt {
            pc: 0x1000c,
            denial
        },
    ]?;
    root_alone(alloc, End::Break, 4, 1, denials)
}

/// Whether a denial is reported by these words.
fn is_denial(alloc: Global, denial: Denial, words: &str) -> Result<bool, Fail> {
    let actors = denied_alone(alloc, denial)?;
    let want = format!(in alloc;
        "actor 0 main break pc 00000004 fuel 1\ndenied 0 pc 0001000c {words}\n"
    )?;
    Ok(is_reported(alloc, actors, Vec::new(alloc), want.as_bytes())?)
}

#[rattlefmt::skip]
static TAGS: [(u32, Right, &str); 3] = [
    (0, Right::ReadWrite, "tag 0 wants ReadWrite"),
    (12, Right::Read, "tag 12 wants Read"),
    (4294967295, Right::Cow, "tag 4294967295 wants Cow"),
];

#[test]
fn denials_of_tags(rt: HostRuntime) -> Result<(), Fail> {
    for (tag, wants, words) in &TAGS {
        let denial = Denial::Tag {
            tag: TagNo(*tag),
            wants: *wants,
        };
        assert!(rt; is_denial(rt.alloc(), denial, words)?, "{words}");
    }
    Ok(())
}

#[rattlefmt::skip]
static FDS: [(bool, bool, &str); 4] = [
    (true, false, "fd 1023 wants read"),
    (false, true, "fd 1023 wants append"),
    (true, true, "fd 1023 wants read+append"),
    (false, false, "fd 1023 wants "),
];

#[test]
fn denials_of_descriptors(rt: HostRuntime) -> Result<(), Fail> {
    for (read, append, words) in &FDS {
        let denial = Denial::Fd {
            fd: FdNo(1023),
            wants: FdBits {
                read: *read,
                append: *append,
            },
        };
        assert!(rt; is_denial(rt.alloc(), denial, words)?, "{words}");
    }
    Ok(())
}

/// Whether a grant that is denied is reported by these words.
fn is_grant(alloc: Global, item: Item, words: &str) -> Result<bool, Fail> {
    is_denial(alloc, Denial::Grant { item }, words)
}

#[test]
fn denials_of_grants(rt: HostRuntime) -> Result<(), Fail> {
    let (tag, right) = (TagNo(7), Right::Read);
    assert!(rt; is_grant(rt.alloc(), Item::Tag { tag, right }, "grant tag 7 Read")?);
    let (read, append) = (true, true);
    let (fd, bits) = (FdNo(3), FdBits { read, append });
    assert!(rt; is_grant(rt.alloc(), Item::Fd { fd, bits }, "grant fd 3 read+append")?);
    let entry = 0x10000;
    assert!(rt; is_grant(rt.alloc(), Item::Gate { entry }, "grant gate 00010000")?);
    Ok(())
}

/// The path of this text.
fn path(alloc: Global, text: &[u8]) -> Result<PathText, Fail> {
    if !is_canonical(text) {
        return Err("a canonical path".into());
    }
    Ok(PathText::new(Bytes::from_slice(alloc, text)?))
}

#[test]
fn other_denials(rt: HostRuntime) -> Result<(), Fail> {
    let alloc = rt.alloc();
    assert!(rt; is_denial(alloc, Denial::Gate { entry: 0x1234abcd }, "gate 1234abcd")?);
    assert!(rt; is_denial(alloc, Denial::User, "user")?);
    assert!(rt; is_denial(alloc, Denial::Root, "root")?);
    assert!(rt; is_denial(alloc, Denial::NotMaker { tag: TagNo(300) }, "not-maker 300")?);
    let path = path(alloc, b"/a/b.txt")?;
    assert!(rt; is_denial(alloc, Denial::File { path }, "file /a/b.txt")?);
    Ok(())
}

/// Two denials of one actor.
fn two_denials(alloc: Global) -> Result<Vec<DenialAt>, NoMemory> {
    let mut denials = Vec::new(alloc);
    denials.push(DenialAt {
        pc: 0x1000c,
        denial: Denial::User,
    })?;
    denials.push(DenialAt {
        pc: 0x10010,
        denial: Denial::Root,
    })?;
    Ok(denials)
}

/// Two lines of actors, the first one with two denials.
fn two_actors(alloc: Global) -> Result<Vec<ActorLine>, NoMemory> {
    let first = root_line(alloc, End::Denied, 0x1000c, 96, two_denials(alloc)?)?;
    let second = root_line(alloc, End::Break, 4, 1, Vec::new(alloc))?;
    Ok(vec![in alloc; first, second]?)
}

/// Two streams, the first one empty.
fn two_streams(alloc: Global) -> Result<Vec<StreamLine>, NoMemory> {
    let first = stream(alloc, 0, b"out", b"")?;
    let second = stream(alloc, 7, b"log", b"x")?;
    Ok(vec![in alloc; first, second]?)
}

#[test]
fn denials_follow_their_actor(rt: HostRuntime) -> Result<(), Fail> {
    let alloc = rt.alloc();
    let actors = two_actors(alloc)?;
    let streams = two_streams(alloc)?;
    let want = b"actor 0 main denied pc 0001000c fuel 96
denied 0 pc 0001000c user
denied 0 pc 00010010 root
actor 0 main break pc 00000004 fuel 1
stream 0 out \"\"
stream 7 log \"x\"
";
    assert!(rt; is_reported(alloc, actors, streams, want)?);
    Ok(())
}

#[test]
fn bytes_in_quotes(rt: HostRuntime) -> Result<(), Fail> {
    let alloc = rt.alloc();
    let quoted = stream_alone(alloc, 3, b"a", b"\x00\x1f !\"#[\\]~\x7f\x80\xff\n")?;
    let want = b"stream 3 a \"\\00\\1f !\\22#[\\5c]~\\7f\\80\\ff\\0a\"\n";
    assert!(rt; is_reported(alloc, Vec::new(alloc), quoted, want)?);
    Ok(())
}
