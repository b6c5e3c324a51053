//! Partitions that the tests run.

/// Two children that each enter a fresh gate.
pub(crate) const FRESH: &str =
    ".proc main\nsvc sc_new\nli a1, tag_box\nli a2, 2\nsvc sc_mem_add\nla a1, guard\nli a2, 5\nli a3, 20\nli a4, 0\nsvc cgate_make\nsvc sc_new\nla a1, guard\nsvc sc_cgate_add\nli a0, 1\nla a1, kid\nli a2, 10\nli a3, 100\nsvc sthread_create\nli a0, 1\nla a1, kid\nli a2, 20\nli a3, 100\nsvc sthread_create\nli a0, 1\nsvc sthread_join\nmv s0, a0\nli a0, 2\nsvc sthread_join\nadd a0, a0, s0\nsvc exit\n.proc kid\nmv a1, a0\nla a0, guard\nli a2, -1\nsvc cgate\nli t0, seg_box\nlw t1, 0(t0)\nsvc exit\n.proc guard\nli t0, seg_box\nlw t0, 0(t0)\nadd a0, a0, a1\nadd a0, a0, t0\nsvc exit\n";

/// A recycled gate entered twice, which counts its runs.
pub(crate) const RECYCLED: &str =
    ".proc main\nsvc sc_new\nla a1, count\nli a2, 0\nli a3, 50\nli a4, 1\nsvc cgate_make\nla a0, count\nli a1, 0\nli a2, -1\nsvc cgate\nla a0, count\nli a1, 0\nli a2, -1\nsvc cgate\nsvc exit\n.proc count\nli t0, 0x20000000\nlw t1, 0(t0)\naddi t1, t1, 1\nsw t1, 0(t0)\nmv a0, t1\nsvc exit\n";

/// Two children that wait for each other: neither ends where one runs to its end before the other begins.
pub(crate) const HANDSHAKE: &str =
    ".proc main\nsvc sc_new\nli a1, tag_box\nli a2, 3\nsvc sc_mem_add\nla a1, kid\nli a2, 0\nli a3, 1000000\nsvc sthread_create\nli a0, 0\nla a1, kid\nli a2, 4\nli a3, 1000000\nsvc sthread_create\nli a0, 1\nsvc sthread_join\nli a0, 2\nsvc sthread_join\nli a0, 0\nsvc exit\n.proc kid\nli t0, seg_box\nadd t1, t0, a0\nli t2, 1\nsw t2, 0(t1)\nxori t3, a0, 4\nadd t3, t3, t0\nwait:\nlw t4, 0(t3)\nbeqz t4, wait\nli a0, 0\nsvc exit\n";

/// The deepest names: each actor starts a child, up to names of 32 parts.
pub(crate) const DEEP: &str =
    ".proc main\nli s0, 2000\nj go\n.proc kid\nmv s0, a0\ngo:\naddi s0, s0, -50\nsvc sc_new\nla a1, kid\nmv a2, s0\nmv a3, s0\nsvc sthread_create\nbnez a1, out\nsvc sthread_join\nsvc exit\nout:\nmv a0, a1\nsvc exit\n";

/// A tag made and deleted, and a child that makes one in the same slot.
pub(crate) const REUSED: &str =
    ".proc main\nli a0, 1\nsvc tag_new\nmv s0, a0\nmv s1, a2\nli t0, 7\nsw t0, 0(s1)\nmv a0, s0\nsvc tag_delete\nsvc sc_new\nla a1, kid\nli a2, 0\nli a3, 100\nsvc sthread_create\nsvc sthread_join\nsw t0, 0(s1)\nsvc exit\n.proc kid\nli a0, 1\nsvc tag_new\nlw a0, 0(a2)\nsvc exit\n";

/// What is declared beside the text.
pub(crate) const DECLARED: &str =
    "\n[[tag]]\nname = \"box\"\npages = 1\nright = \"ReadWrite\"\nhex = \"1f000000\"\n[[fd]]\nname = \"out\"\nkind = \"append\"\nbits = \"append\"\n";

/// A whole partition, whose root opens a file.
pub(crate) const OPENED: &str =
    "fuel = 1000\nuser = 7\nroot = \"/box\"\nentry = \"main\"\ntext = \"\"\"\n.proc main\n    li a0, data_path\n    li a1, 14\n    li a2, 1\n    svc file_open\n    mv a0, a1\n    svc exit\n\"\"\"\n\n[[tag]]\nname = \"box\"\npages = 1\nright = \"ReadWrite\"\n\n[[data]]\nname = \"path\"\nbase = 131072\ntext = \"/../../etc/key\"\n\n[[file]]\npath = \"/box/etc/key\"\nowner = 0\nmode = 1\nkind = \"source\"\ntext = \"key\"\n\n[[fd]]\nname = \"out\"\nkind = \"append\"\nbits = \"append\"\n";
