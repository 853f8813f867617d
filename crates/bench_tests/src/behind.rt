// What stands behind a long text, each behind the label of the whole.

// Behind 64 inputs.
pub static INPUTS: [(&str, &str); 4] = [
    ("64 inputs", ""),
    ("65 inputs", "INPUT(a)\n"),
    ("64 inputs and a gate", "y = NOT(a)\n"),
    ("7 and 9 at an input", "INPUT(0000)\n"),
];

// Behind 64 outputs.
pub static OUTPUTS: [(&str, &str); 4] = [
    ("64 outputs", ""),
    ("65 outputs", "OUTPUT(a)\n"),
    ("64 outputs and an input", "INPUT(0000)\n"),
    ("8 and 9", "OUTPUT(0063)\n"),
];

// Behind 64 inputs and 1,984 gates of one operand.
pub static NETS: [(&str, &str); 6] = [
    ("2048 nets", ""),
    ("2049 nets", "y = NOT(a)\n"),
    ("2048 nets and an output", "OUTPUT(0000)\n"),
    ("7 and 9 at a gate", "2047 = NOT(a)\n"),
    ("3 and 9", "y = NOT()\n"),
    ("5 and 9", "y = BUF(a)\n"),
];

// Behind 2,048 gates of one operand.
pub static GATES: [(&str, &str); 3] = [
    ("2048 gates", ""),
    ("2048 gates and an input", "INPUT(a)\n"),
    ("2048 gates and a line more", "#\nz = NOT(a)\n"),
];

// Behind 511 gates of 16 operands, which are 8,176 pins.
pub static PINS: [(&str, &str); 9] = [
    ("8192 pins", "y=AND(a,a,a,a,a,a,a,a,a,a,a,a,a,a,a,a)\n"),
    (
        "8193 pins",
        "y=AND(a,a,a,a,a,a,a,a,a,a,a,a,a,a,a,a)\nz=NOT(a)\n",
    ),
    (
        "8192 pins and ports",
        "y=AND(a,a,a,a,a,a,a,a,a,a,a,a,a,a,a,a)\nINPUT(z)\nOUTPUT(z)\n",
    ),
    (
        "6 and 9",
        "y=AND(a,a,a,a,a,a,a,a,a,a,a,a,a,a,a,a)\nz=AND(a,a,a,a,a,a,a,a,a,a,a,a,a,a,a,a,a)\n",
    ),
    (
        "7 and 9 at pins",
        "y=AND(a,a,a,a,a,a,a,a,a,a,a,a,a,a,a,a)\ny=NOT(a)\n",
    ),
    (
        "8191 pins and 1",
        "y=AND(a,a,a,a,a,a,a,a,a,a,a,a,a,a,a)\nz=NOT(a)\n",
    ),
    (
        "8191 pins and 2",
        "y=AND(a,a,a,a,a,a,a,a,a,a,a,a,a,a,a)\nz=AND(a,a)\n",
    ),
    (
        "8191 pins and 16",
        "y=AND(a,a,a,a,a,a,a,a,a,a,a,a,a,a,a)\nz=AND(a,a,a,a,a,a,a,a,a,a,a,a,a,a,a,a)\n",
    ),
    (
        "8178 pins and 15",
        "y=AND(a,a)\nz=AND(a,a,a,a,a,a,a,a,a,a,a,a,a,a,a)\n",
    ),
];

// Behind an input and a comment, 65,535 bytes in all.
pub static COMMENT: [(&str, &str); 3] = [
    ("65535 bytes", ""),
    ("65536 bytes", "x"),
    ("65537 bytes", "xx"),
];

// Behind 65,535 newlines.
pub static NEWLINES: [(&str, &str); 7] = [
    ("65535 newlines", ""),
    ("65536 newlines", "\n"),
    ("65537 newlines", "\n\n"),
    ("line 65536", ")"),
    ("comment at line 65536", "#"),
    ("CR at line 65536", "\r"),
    ("65537 bytes with a fault", "))"),
];

// Behind a bad first line, 65,536 bytes in all.
pub static FAULT: [(&str, &str); 2] = [
    ("fault in 65536 bytes", ""),
    ("fault in 65537 bytes", "\n"),
];

// Behind the opening bracket and 65,529 bytes of an input's name, 65,535 bytes in all.
pub static NAME: [(&str, &str); 2] = [("name with no end", ""), ("name of 65529 bytes", ")")];

// Behind 32,765 operands, 65,535 bytes in all.
pub static LIST: [(&str, &str); 2] = [("list with no end", ""), ("list of 32765", ")")];
