//! A partition that several tests run.

/// Two children that each store a word, and then wait until the other has: neither ends where one runs to its end before
/// the other begins.
pub(crate) static HANDSHAKE: &str = "fuel = 3000000
user = 0
root = \"/\"
entry = \"main\"
text = \"\"\"
.proc main
svc sc_new
li a1, tag_box
li a2, 3
svc sc_mem_add
la a1, kid
li a2, 0
li a3, 1000000
svc sthread_create
li a0, 0
la a1, kid
li a2, 4
li a3, 1000000
svc sthread_create
li a0, 1
svc sthread_join
li a0, 2
svc sthread_join
li a0, 0
svc exit
.proc kid
li t0, seg_box
add t1, t0, a0
li t2, 1
sw t2, 0(t1)
xori t3, a0, 4
add t3, t3, t0
wait:
lw t4, 0(t3)
beqz t4, wait
li a0, 0
svc exit
\"\"\"
[[tag]]
name = \"box\"
pages = 1
right = \"ReadWrite\"
[[fd]]
name = \"out\"
kind = \"append\"
bits = \"append\"
";
