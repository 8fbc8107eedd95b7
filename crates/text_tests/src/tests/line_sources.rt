use super::shown_lines::{files_of, run, same};
use pawn_base::Memory;
use std::alloc::Global;
use std::test::Fail;

/// Sources, and what they come to.
const SOURCES: [(&str, &str); 78] = [
    // Lines and comments.
    ("", ""),
    ("\n\n", "0:1 |0:2 |"),
    ("\r\n\n\r\n", "0:1 |0:2 |0:3 |"),
    ("a\r\nb\r", "0:1 a|0:2 b\r|"),
    ("a\\\nb\\\r\nc\nd", "0:1 abc|0:4 d|"),
    ("x\\\\\n\nb", "0:1 x\\|0:3 b|"),
    ("a // b\nc /* d\ne */ f", "0:1 a  |0:2 c  |0:3  f|"),
    ("\"/*\" '//' /*/ */x", "0:1 \"/*\" '//'  x|"),
    ("/* x", "fault 12 0:1 s.p"),
    ("#define A /* x\ny */ B\nA", "0:2  B|0:3 |"),
    ("#error\n/* x\n", "fault 4 0:1 s.p"),
    ("#endinput\nx\n/*", "fault 12 0:3 s.p"),
    // Directives and conditionals.
    ("#foo", "fault 1 0:1 s.p"),
    ("#if(1)\na\n#else b\nc\n#endif d", "0:2 a|"),
    ("#if1", "fault 1 0:1 s.p"),
    ("#includeq", "fault 1 0:1 s.p"),
    ("#", "fault 1 0:1 s.p"),
    ("#if 0\n#\n#if1\n#endif\nx", "0:5 x|"),
    ("#else", "fault 2 0:1 s.p"),
    ("#if 1\na\\\nb", "fault 2 0:2 s.p"),
    (
        "#if 0\n#foo\n#if 1\n#else\n#endif\n#elseif 1\na\n#else\nb\n#endif",
        "0:7 a|",
    ),
    (
        "#if 0\n#if 1\n#else\n#else\n#endif\n#endif",
        "fault 2 0:4 s.p",
    ),
    ("#if 1\n#else\n#elseif x\n#endif", "fault 2 0:3 s.p"),
    ("#if 1\n#endinput\nx", ""),
    ("#error no", "fault 4 0:1 s.p"),
    ("#assert 1 > 2", "fault 5 0:1 s.p"),
    ("#assert 2 > 1\nx", "0:2 x|"),
    ("#define\nx", "fault 6 0:1 s.p"),
    ("#define(A) x", "fault 6 0:1 s.p"),
    ("#include \"q\"", "fault 3 0:1 s.p"),
    ("#tryinclude <q>\nx", "0:2 x|"),
    // Conditions.
    ("#if 1/0\n#endif", "fault 11 0:1 s.p"),
    ("#if 1 || 1/0\n#endif", "fault 11 0:1 s.p"),
    ("#if 0 > 1 > 1/0\n#endif", "fault 11 0:1 s.p"),
    ("#if x\n#endif", "fault 11 0:1 s.p"),
    ("#if 1 ? true:2\na\n#endif", "0:2 a|"),
    ("#if true:2\n#endif", "fault 11 0:1 s.p"),
    ("#assert 1 < 2 < 3 && !(3 > 2 > 1 > 1)\nx", "0:2 x|"),
    (
        "#assert -7 / 2 == -4 && -7 % 2 == 1 && cellmin / -1 == cellmin\nx",
        "0:2 x|",
    ),
    (
        "#assert 1 - 2 - 3 == -4 && 1 + 2 * 3 == 7 && (0 ? 1 : 0 ? 2 : 3) == 3\nx",
        "0:2 x|",
    ),
    (
        "#assert 'A' == 65 && '\\x41;' == 65 && '\\65' == 65 && '\\n' == 10\nx",
        "0:2 x|",
    ),
    (
        "#assert 0xFFFFFFFF == -1 && 0b101 == 5 && -1 >>> 28 == 15\nx",
        "0:2 x|",
    ),
    ("#assert 1 -- 1\nx", "fault 11 0:1 s.p"),
    ("#assert 4294967296\nx", "fault 11 0:1 s.p"),
    (
        "#define A\n#assert defined A && defined(A) && defined ( A )\nx",
        "0:3 x|",
    ),
    ("#define A\n#assert defined(A)1 == 11\nx", "0:3 x|"),
    ("#assert defined((A))\nx", "fault 11 0:1 s.p"),
    ("#assert defined (A\nx", "fault 11 0:1 s.p"),
    ("#define A\n#if 'defined A'\n#endif", "fault 11 0:2 s.p"),
    (
        "#define while until\n#undef if\n#assert defined while\nwhile if",
        "0:4 until if|",
    ),
    ("#define D defined A\n#if D\n#endif", "fault 11 0:2 s.p"),
    ("#define true 0\n#if true\na\n#else\nb\n#endif", "0:5 b|"),
    ("#assert defined cellmax == 0\nx", "0:2 x|"),
    // Substitution.
    (
        "#define MAX(%1,%2) ((%1) > (%2) ? (%1) : (%2))\nMAX(3, MAX(2, 5))",
        "0:2 ((3) > (((2) > (5) ? (2) : (5))) ? (3) : (((2) > (5) ? (2) : (5))))|",
    ),
    ("#define A A\nA", "fault 7 0:2 s.p"),
    (
        "#define A() B\n#define BC d\nA()C A ( ) 1A xA A(",
        "0:3 d B 1A xA A(|",
    ),
    (
        "#define F(%1) [%1]\nF([)]) F((a, b)c) F(')') F( x )",
        "0:2 F([)]) [(a, b)c] [')'] [x]|",
    ),
    ("#define A%1;! x\nA b; c;!", "0:2 A b; c;!|"),
    ("#define A.B x\nA.Bc \"A.B\"", "0:2 xc \"A.B\"|"),
    ("#define A(%1) '%1' %1\nA(2)", "0:2 '%1' 2|"),
    ("#define A 1\n#undef A(%1)\n#undef\n#undef 1\nA", "0:5 A|"),
    ("#define A(%1, %2) x\nx", "fault 6 0:1 s.p"),
    ("#define A%1%2 x", "fault 6 0:1 s.p"),
    ("#define H(%1) %1%2", "fault 6 0:1 s.p"),
    (
        "#define a2345678901234567890123456789012 x\na2345678901234567890123456789012",
        "0:2 x|",
    ),
    ("#define A b\n#define xA c\n0xA .A ''A", "0:3 0xA .b ''b|"),
    (
        "#pragma ctrlchar '^'\n#define A '^'%2'\n#pragma ctrlchar '\\'\nA",
        "0:4 '^'%2'|",
    ),
    // Pragmas. Under the control character `'` no character closes.
    ("#pragma ctrlchar '''\n#if 'a'\n#endif", "fault 11 0:2 s.p"),
    ("#pragma ctrlchar '''\n#if ''n'\n#endif", "fault 11 0:2 s.p"),
    ("#pragma ctrlchar '''\n#if ''''\n#endif", "fault 11 0:2 s.p"),
    ("#pragma ctrlchar '''\n#if '''\n#endif", "fault 11 0:2 s.p"),
    (
        "#pragma ctrlchar '''\n#define A 10\n#assert ''n' == A\nx",
        "fault 11 0:3 s.p",
    ),
    (
        "#pragma ctrlchar '^'\n#assert '^n' == 10 && '\\' == 92\nx",
        "0:3 x|",
    ),
    ("#pragma ctrlchar", "fault 11 0:1 s.p"),
    ("#pragma ctrlchar '\\\\'", "fault 11 0:1 s.p"),
    ("#pragma dynamics (\nx", "0:2 x|"),
    ("#pragma semicolon defined A", "fault 11 0:1 s.p"),
    ("#pragma tabsize\nx", "0:2 x|"),
];

/// Whether a source comes to this text.
fn is_read_as(alloc: Global, source: &str, want: &str) -> Result<bool, Memory> {
    let mut files = files_of(alloc, &[("s.p", source)])?;
    let got = run(alloc, "s.p", &mut files)?;
    Ok(same(got.as_slice(), want.as_bytes()))
}

fn cases() -> &'static [(&'static str, &'static str)] {
    &SOURCES
}

/// The number of the first row that is wrong.
fn first_wrong(alloc: Global) -> Result<Option<usize>, Memory> {
    for (row, (source, want)) in cases().iter().enumerate() {
        if !is_read_as(alloc, *source, *want)? {
            return Ok(Some(row));
        }
    }
    Ok(None)
}

#[test]
fn sources(rt: HostRuntime) -> Result<(), Fail> {
    assert_eq!(rt; first_wrong(rt.alloc())?, None);
    Ok(())
}
