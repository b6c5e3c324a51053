//! The image that is made for each number of workers, and the one that is built of the text of its partition.

use image_form::{Image, write_image};
use part_toml::read_partition;
use std::alloc::Global;
use std::test::Fail;
use workload::generate;

/// The head of the partition of so many workers, up to the code of the root.
fn head(alloc: Global, workers: u32) -> Result<String, Fail> {
    let fuel = workers.wrapping_mul(2020).wrapping_add(100);
    Ok(format!(in alloc;
        "fuel = {fuel}\nuser = 0\nroot = \"/\"\nentry = \"main\"\ntext = \"\"\"\n"
    )?)
}

/// The code of the root, which creates so many workers and adds what they exit with.
fn root(alloc: Global, workers: u32) -> Result<String, Fail> {
    Ok(format!(in alloc;
        ".proc main
svc sc_new
mv s0, a0
li a1, tag_input
li a2, 2
svc sc_mem_add
li s1, {workers}
li s2, 0
more:
beqz s1, all
mv a0, s0
la a1, work
li a2, 0
li a3, 2000
svc sthread_create
addi s1, s1, -1
j more
all:
li s1, {workers}
li s3, 1
gather:
beqz s1, finish
mv a0, s3
svc sthread_join
add s2, s2, a0
addi s3, s3, 1
addi s1, s1, -1
j gather
finish:
mv a0, s2
svc exit
"
    )?)
}

/// The code of a worker, and the tables up to the bytes of the tag `input`.
static WORKER: &str = ".proc work
li a0, 1
svc tag_new
mv s0, a2
li s1, 64
li s2, seg_input
li s3, 0
step:
beqz s1, last
lw t0, 0(s2)
add s3, s3, t0
sw s3, 0(s0)
addi s2, s2, 4
addi s1, s1, -1
j step
last:
li a0, 0
mv a1, sp
li a2, 0
svc fd_append
lw a0, 0(s0)
svc exit
\"\"\"
[[tag]]
name = \"input\"
pages = 1
right = \"Read\"
hex = \"";

/// What stands after the bytes of the tag `input`.
static TAIL: &str = "\"
[[fd]]
name = \"out\"
kind = \"append\"
bits = \"append\"
";

/// Adds the 64 words of the tag `input`, each in little-endian hexadecimal.
fn push_input(text: &mut String, alloc: Global, workers: u32) -> Result<(), Fail> {
    for k in 0..64u32 {
        let word = k
            .wrapping_mul(2654435761)
            .wrapping_add(workers)
            .swap_bytes();
        text.push_str(format!(in alloc; "{word:08x}")?.as_str())?;
    }
    Ok(())
}

/// The partition of the workload of so many workers.
fn partition(alloc: Global, workers: u32) -> Result<String, Fail> {
    let mut text = head(alloc, workers)?;
    text.push_str(root(alloc, workers)?.as_str())?;
    text.push_str(WORKER)?;
    push_input(&mut text, alloc, workers)?;
    text.push_str(TAIL)?;
    Ok(text)
}

/// Whether two images are encoded by the same bytes.
fn are_same(alloc: Global, one: &Image, other: &Image) -> Result<bool, Fail> {
    let (one, other) = (write_image(alloc, one)?, write_image(alloc, other)?);
    Ok(one.as_slice() == other.as_slice())
}

/// The image that is made for each number of workers has the bytes of the one that is built of the partition.
#[test]
fn each_workload_is_built_of_its_partition(rt: HostRuntime) -> Result<(), Fail> {
    for workers in 1..201u32 {
        let Ok(built) = read_partition(rt.alloc(), partition(rt.alloc(), workers)?.as_str()) else {
            return Err("rejected".into());
        };
        let made = generate(rt.alloc(), workers)?;
        assert!(rt; are_same(rt.alloc(), &built, &made)?, "{workers}");
    }
    Ok(())
}
