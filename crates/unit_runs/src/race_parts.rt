//! Programs that race, and what is declared beside them.

/// What is declared beside most programs.
pub(crate) static BOX: &str = "
[[tag]]
name = \"box\"
pages = 1
right = \"ReadWrite\"
";

/// Two children, each of which stores to a word of its own.
pub(crate) static MEET: &str = "
.proc main
    svc  sc_new
    li   a1, tag_box
    li   a2, 3
    svc  sc_mem_add
    la   a1, kid
    li   a2, 0
    li   a3, 100
    svc  sthread_create
    li   a0, 0
    la   a1, kid
    li   a2, 4
    li   a3, 100
    svc  sthread_create
    li   a0, 1
    svc  sthread_join
    li   a0, 2
    svc  sthread_join
    li   t0, seg_box
    lw   a0, 0(t0)
    lw   t1, 4(t0)
    add  a0, a0, t1
    svc  exit
.proc kid
    li   t0, seg_box
    add  t0, t0, a0
    addi t1, a0, 1
    sw   t1, 0(t0)
    lw   a0, 0(t0)
    svc  exit
";

/// Three children, each of which reads a request and has a byte of it signed by a gate that may load the key. They
/// trust the offset in a request, and that of one leads to the key.
pub(crate) static SIGN: &str = "
.proc main
    svc  sc_new
    mv   s0, a0
    li   a1, tag_key
    li   a2, 2
    svc  sc_mem_add
    mv   a0, s0
    la   a1, sign
    li   a2, 0x5a
    li   a3, 20
    li   a4, 0
    svc  cgate_make
    svc  sc_new
    mv   s0, a0
    li   a1, fd_requests
    li   a2, 1
    svc  sc_fd_add
    mv   a0, s0
    li   a1, fd_log
    li   a2, 2
    svc  sc_fd_add
    mv   a0, s0
    la   a1, sign
    svc  sc_cgate_add
    li   s1, 3
start:
    mv   a0, s0
    la   a1, listen
    li   a2, 0
    li   a3, 200
    svc  sthread_create
    addi s1, s1, -1
    bnez s1, start
    li   s1, 3
    li   s2, 0
join:
    mv   a0, s1
    svc  sthread_join
    add  s2, s2, a2
    addi s1, s1, -1
    bnez s1, join
    mv   a0, s2
    svc  exit
.proc listen
    li   a0, fd_requests
    addi a1, sp, -8
    li   a2, 8
    svc  fd_read
    lw   t0, -8(sp)
    addi t1, sp, -8
    add  t1, t1, t0
    lbu  a1, 0(t1)
    la   a0, sign
    li   a2, -1
    svc  cgate
    sb   a0, -1(sp)
    li   a0, fd_log
    addi a1, sp, -1
    li   a2, 1
    svc  fd_append
    li   a0, 0
    svc  exit
.proc sign
    li   t0, seg_key
    lbu  t0, 0(t0)
    xor  a0, a0, t0
    xor  a0, a0, a1
    svc  exit
";

/// The key, the log, and three requests of an offset and a message: `A`, one whose offset leads from the stack to the
/// key, and `B`.
pub(crate) static SIGNED: &str = "
[[tag]]
name = \"key\"
pages = 1
right = \"Read\"
hex = \"29\"
[[fd]]
name = \"log\"
kind = \"append\"
bits = \"append\"
[[fd]]
name = \"requests\"
kind = \"source\"
bits = \"read\"
hex = \"04000000410000000800fe1f000000000400000042000000\"
";

/// Eight children, each of which loads and stores 50 times in one tag.
pub(crate) static CROWD: &str = "
.proc main
    svc  sc_new
    li   a1, tag_box
    li   a2, 3
    svc  sc_mem_add
    li   s1, 8
start:
    li   a0, 0
    la   a1, kid
    li   a2, 0
    li   a3, 400
    svc  sthread_create
    addi s1, s1, -1
    bnez s1, start
    li   s1, 8
join:
    mv   a0, s1
    svc  sthread_join
    addi s1, s1, -1
    bnez s1, join
    li   a0, 1
    svc  exit
.proc kid
    li   t0, seg_box
    li   s0, 50
again:
    lw   a0, 0(t0)
    sw   a0, 4(t0)
    addi s0, s0, -1
    bnez s0, again
    li   a0, 0
    svc  exit
";

/// Eight children that enter a recycled gate, which counts its runs.
pub(crate) static COUNT: &str = "
.proc main
    svc  sc_new
    la   a1, count
    li   a2, 0
    li   a3, 500
    li   a4, 1
    svc  cgate_make
    svc  sc_new
    mv   s0, a0
    la   a1, count
    svc  sc_cgate_add
    li   s1, 8
start:
    mv   a0, s0
    la   a1, kid
    li   a2, 0
    li   a3, 600
    svc  sthread_create
    addi s1, s1, -1
    bnez s1, start
    li   s1, 8
    li   s2, 0
join:
    mv   a0, s1
    svc  sthread_join
    add  s2, s2, a0
    addi s1, s1, -1
    bnez s1, join
    mv   a0, s2
    svc  exit
.proc kid
    la   a0, count
    li   a1, 0
    li   a2, -1
    svc  cgate
    svc  exit
.proc count
    li   t0, 0x20000000
    lw   t1, 0(t0)
    li   t2, 100
work:
    addi t2, t2, -1
    bnez t2, work
    addi t1, t1, 1
    sw   t1, 0(t0)
    mv   a0, t1
    svc  exit
";

/// Sixteen children, each of which makes and deletes ten tags. It exits with the sum of their numbers and of the words
/// that it finds in them.
pub(crate) static TAGS: &str = "
.proc main
    svc  sc_new
    mv   s0, a0
    li   s1, 16
start:
    mv   a0, s0
    la   a1, kid
    li   a2, 0
    li   a3, 500
    svc  sthread_create
    addi s1, s1, -1
    bnez s1, start
    li   s1, 16
    li   s2, 0
join:
    mv   a0, s1
    svc  sthread_join
    add  s2, s2, a0
    addi s1, s1, -1
    bnez s1, join
    mv   a0, s2
    svc  exit
.proc kid
    li   s0, 10
    li   s1, 0
again:
    li   a0, 1
    svc  tag_new
    lw   t0, 0(a2)
    add  s1, s1, t0
    add  s1, s1, a0
    sw   a0, 0(a2)
    svc  tag_delete
    addi s0, s0, -1
    bnez s0, again
    mv   a0, s1
    svc  exit
";

/// The root starts 255 children and asks for one more. Then it enters a gate, joins all children, and starts another.
/// It exits with the code of the child too many, and sixteen times the sum of all other codes.
pub(crate) static FULL: &str = "
.proc main
    svc  sc_new
    mv   s0, a0
    la   a1, last
    li   a2, 0
    li   a3, 10
    li   a4, 0
    svc  cgate_make
    li   s1, 255
    li   s2, 0
start:
    call ask
    add  s2, s2, a1
    addi s1, s1, -1
    bnez s1, start
    call ask
    mv   s3, a1
    la   a0, last
    li   a1, 0
    li   a2, -1
    svc  cgate
    add  s2, s2, a1
    li   s1, 255
join:
    mv   a0, s1
    svc  sthread_join
    add  s2, s2, a1
    addi s1, s1, -1
    bnez s1, join
    call ask
    add  s2, s2, a1
    slli s2, s2, 4
    add  a0, s2, s3
    svc  exit
ask:
    mv   a0, s0
    la   a1, kid
    li   a2, 0
    li   a3, 10
    svc  sthread_create
    ret
.proc kid
    svc  exit
.proc last
    svc  exit
";

/// Four children, each of which opens a file and reads all of it. It exits with a hash of the bytes.
pub(crate) static READ: &str = "
.proc main
    svc  sc_new
    mv   s0, a0
    li   s1, 4
start:
    mv   a0, s0
    la   a1, kid
    li   a2, 0
    li   a3, 5000
    svc  sthread_create
    addi s1, s1, -1
    bnez s1, start
    li   s1, 4
join:
    mv   a0, s1
    svc  sthread_join
    addi s1, s1, -1
    bnez s1, join
    li   a0, 0
    svc  exit
.proc kid
    li   a0, data_path
    li   a1, 5
    li   a2, 1
    svc  file_open
    mv   s0, a0
    li   s1, 0
    li   s2, 31
read:
    mv   a0, s0
    addi a1, sp, -256
    li   a2, 256
    svc  fd_read
    beqz a0, done
    addi t0, sp, -256
    add  t1, t0, a0
byte:
    lbu  t2, 0(t0)
    mul  s1, s1, s2
    add  s1, s1, t2
    addi t0, t0, 1
    bne  t0, t1, byte
    j    read
done:
    mv   a0, s1
    svc  exit
";

/// The path of a file, and the table of the file but for its text.
pub(crate) static FILED: &str = "
[[data]]
name = \"path\"
base = 131072
text = \"/word\"
[[file]]
path = \"/word\"
owner = 0
mode = 1
kind = \"source\"
";

/// Children that are started and joined one after another.
pub(crate) static ONE_BY_ONE: &str = "
.proc main
    svc  sc_new
    mv   s0, a0
    li   s1, 20000
again:
    mv   a0, s0
    la   a1, kid
    li   a2, 0
    li   a3, 10
    svc  sthread_create
    svc  sthread_join
    addi s1, s1, -1
    bnez s1, again
    li   a0, 0
    svc  exit
.proc kid
    li   a0, 7
    svc  exit
";

/// Two children, each of which adds one to the same word 100 times.
pub(crate) static RACE: &str = "
.proc main
    svc  sc_new
    li   a1, tag_box
    li   a2, 3
    svc  sc_mem_add
    la   a1, kid
    li   a2, 0
    li   a3, 1000
    svc  sthread_create
    li   a0, 0
    la   a1, kid
    li   a2, 0
    li   a3, 1000
    svc  sthread_create
    li   a0, 1
    svc  sthread_join
    li   a0, 2
    svc  sthread_join
    li   t0, seg_box
    lw   a0, 0(t0)
    svc  exit
.proc kid
    li   t0, seg_box
    li   t1, 100
again:
    lw   t2, 0(t0)
    addi t2, t2, 1
    sw   t2, 0(t0)
    addi t1, t1, -1
    bnez t1, again
    li   a0, 0
    svc  exit
";
