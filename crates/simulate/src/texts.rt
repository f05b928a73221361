//! What other programs write into the folders, and what an operator types.

/// The names of the folder of objects.
pub const OBJECTS: &[&str] = &[
    "objects/a.txt",
    "objects/b.txt",
    "objects/c.png",
    "objects/d.txt",
    "objects/e.doc",
    "objects/f.jpg",
];

/// The bytes of its files: one byte again and again, so that a mixture shows.
pub const BODIES: &[&[u8]] = &[
    b"aaaaaaaaaaaaaaaaaaaaaaaa",
    b"bbbbbbbbbbbbbbbbbbbbbbbb",
    b"cccccccccccccccccccccccc",
    b"dddddddd",
    b"eeeeeeee",
    b"jjjjjjjjjjjjjjjjjjjjjjjj",
    b"qqqqqqqqqqqqqqqqqqqqqqqq",
    b"ffffffffffffffffffffffffffffffffffffffff",
    b"\
        llllllllllllllllllllllllllllllllllllllllllllllllllllllllllllllllllllllllllllllllllllllllllllllllllll\
        llllllllllllllllllllllllllllllllllllllllllllllllllllllllllllllllllllllllllllllllllllllllllllllllllll\
        llllllllllllllllllllllllllllllllllllllllllllllllllllllllllllllllllllllllllllllllllllllllllllllllllll\
        llllllllllllllllllllllllllllllllllllllllllllllllllllllllllllllllllllllllllllllllllllllllllllllllllll\
        llllllllllllllllllllllllllllllllllllllllllllllllllllllllllllllllllllllllllllllllllllllllllllllllllll\
        llllllllllllllllllllllllllllllllllllllllllllllllllllllllllllllllllllllllllllllllllllllllllllllllllll",
];

/// The names of the folder of lines.
pub const NAMES: &[&str] = &[
    "lines/1.lines",
    "lines/2.lines",
    "lines/note.lines",
    "lines/headlines",
    "lines/.part.lines",
];

/// The bytes of its files. Of some lines a front is another line, that can be carried out, too.
pub const LINES: &[&[u8]] = &[
    b"put x-1 2 3 - 010101010101010101010101\nput x 2 3 - 0202020202020202\nperiod 37\n",
    b"period 12\nput y-23 2 3 - 030303030303030303030303\nput y 2 3 - 08080808\nput y-2 2 3 - 0909\n",
    b"withdraw y-23\nwithdraw x-1\nlist\nput z 2 3 - 0404040404\nput z-1 2 3 - 05050505050505",
    b"replace x 2 3 - 0707070707070707070707\nnext\nwithdraw z-1\nreplace z 2 3 - 0606060606\n",
    b"withdrawn from service\n",
    b"puts nothing\n",
];

/// The lines that an operator gives `serve`.
pub const INPUTS: &[&[u8]] = &[
    b"put x 2 3 - 0202020202020202\nput y 2 3 - 08080808\nreplace x 2 3 - 0101010101\nperiod 9\n",
    b"withdraw x\nput x 2 3 - 040404040404040404\nwithdraw a.txt\nreplace y 2 3 - 0505\nperiod 1\n",
    b"period 3\nperiod 4\nreplace x 2 3 - 0303\nput z 2 3 - 06060606060606060606060606\nwithdraw y\n",
];
