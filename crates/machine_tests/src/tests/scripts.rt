use script_reader::{Answer, Field, Form, Native, Script, ScriptFault, Write, read_script};
use std::alloc::{AllocError, Global};
use std::test::Fail;

/// What reading a text answers, but for the script.
fn refusal(alloc: Global, text: &[u8]) -> Option<ScriptFault> {
    match read_script(alloc, text) {
        Ok(_script) => None,
        Err(fault) => Some(fault),
    }
}

/// Texts that are scripts. Of two equal keys the last one stands.
const SCRIPTS: [&str; 18] = [
    "{}",
    " {\"others\": true, \"natives\": [], \"answers\": []}\n\t\r ",
    "{\"others\":1,\"others\":true,\"\\u006fthers\":false}",
    "{\"natives\":[{\"name\":\"p\",\"name\":\"q\"},{\"name\":\"p\"}]}",
    "{\"natives\":[{\"name\":\"a\\u0000b\"},{\"name\":\"abcdefghijklmnopqrstuvwxyz01234\"}]}",
    "{\"natives\":[{\"name\":\"\\u00e4\\ud83d\\ude00\",\"forms\":[],\"rest\":\"text\"}]}",
    "{\"natives\":[{\"name\":\"p\",\"forms\":[\"ref\",\"text\",\"cells:1\",\"cells:4096\"]}]}",
    "{\"natives\":[{\"name\":\"p\",\"rest\":\"cells:10\",\"result\":-2147483648}]}",
    "{\"natives\":[{\"name\":\"p\",\"result\":2147483647}]}",
    "{\"answers\":[{}]}",
    "{\"answers\":[{\"result\":-1},{\"writes\":[]}]}",
    "{\"answers\":[{\"error\":2},{\"error\":11},{\"error\":13},{\"error\":127}]}",
    "{\"answers\":[{\"writes\":[{\"arg\":0,\"cells\":[]}]}]}",
    "{\"answers\":[{\"writes\":[{\"arg\":2147483647,\"cells\":[-2147483648,2147483647]}]}]}",
    "{\"answers\":[{\"writes\":[{\"cells\":[1],\"arg\":1},{\"arg\":1,\"cells\":[2]}]}]}",
    "{\"\\u006e\\u0061tives\":[{\"n\\u0061me\":\"p\",\"forms\":[\"c\\u0065ll\"]}]}",
    "{\"answers\":[{\"error\":1.5,\"error\":3}]}",
    "{\"natives\":[{\"name\":\"\\u007f\"}]}",
];

#[test]
fn texts_that_are_scripts(rt: HostRuntime) {
    for text in SCRIPTS {
        assert!(rt; refusal(rt.alloc(), text.as_bytes()).is_none(), "{text}");
    }
}

/// Bytes that the library reads no value from.
const NO_JSON: [&[u8]; 24] = [
    b"",
    b" ",
    b"{",
    b"{} {}",
    b"{}x",
    b"{}\0",
    b"\x0c{}",
    b"\xEF\xBB\xBF{}",
    b"{\"others\":tru}",
    b"{\"others\":true,}",
    b"{\"answers\":[,]}",
    b"{others:true}",
    b"{'others':true}",
    b"{} // script",
    b"{\"natives\":[{\"name\":\"\\ud800\"}]}",
    b"{\"natives\":[{\"name\":\"\\udc00\\ud800\"}]}",
    b"{\"natives\":[{\"name\":\"\xFF\"}]}",
    b"{\"natives\":[{\"name\":\"\xED\xA0\x80\"}]}",
    b"{\"natives\":[{\"name\":\"\n\"}]}",
    b"{\"answers\":[{\"result\":01}]}",
    b"{\"answers\":[{\"result\":+1}]}",
    b"{\"answers\":[{\"result\":1.}]}",
    b"{\"answers\":[{\"result\":1e999}]}",
    b"{\"answers\":[{\"result\":1e999,\"result\":1}]}",
];

#[test]
fn bytes_that_are_no_json(rt: HostRuntime) {
    for text in NO_JSON {
        assert!(rt; refusal(rt.alloc(), text) == Some(ScriptFault::Json));
    }
}

/// Whole texts that are refused for their form.
const MISSHAPEN: [(&str, Field); 23] = [
    ("[]", Field::Script),
    ("null", Field::Script),
    ("{\"other\":true}", Field::Script),
    ("{\"others\":1}", Field::Others),
    ("{\"others\":\"true\"}", Field::Others),
    ("{\"others\":true,\"others\":1}", Field::Others),
    ("{\"natives\":{}}", Field::Natives),
    ("{\"natives\":[1]}", Field::Natives),
    ("{\"natives\":[{}]}", Field::Natives),
    (
        "{\"natives\":[{\"name\":\"p\",\"form\":[]}]}",
        Field::Natives,
    ),
    ("{\"natives\":[{\"name\":1}]}", Field::Name),
    (
        "{\"natives\":[{\"name\":\"p\"},{\"name\":\"q\"},{\"name\":\"p\"}]}",
        Field::Name,
    ),
    (
        "{\"natives\":[{\"name\":\"p\",\"forms\":\"cell\"}]}",
        Field::Forms,
    ),
    ("{\"natives\":[{\"name\":\"p\",\"rest\":[]}]}", Field::Rest),
    (
        "{\"natives\":[{\"name\":\"p\",\"rest\":\"cells\"}]}",
        Field::Rest,
    ),
    ("{\"answers\":{}}", Field::Answers),
    ("{\"answers\":[0]}", Field::Answers),
    ("{\"answers\":[{\"error\":2,\"more\":1}]}", Field::Answers),
    ("{\"answers\":[{\"error\":2,\"result\":1}]}", Field::Error),
    ("{\"answers\":[{\"writes\":{}}]}", Field::Writes),
    ("{\"answers\":[{\"writes\":[{\"arg\":1}]}]}", Field::Writes),
    (
        "{\"answers\":[{\"writes\":[{\"cells\":[]}]}]}",
        Field::Writes,
    ),
    (
        "{\"answers\":[{\"writes\":[{\"arg\":1,\"cells\":1}]}]}",
        Field::Cells,
    ),
];

#[test]
fn fields_of_another_form(rt: HostRuntime) {
    for (text, field) in MISSHAPEN {
        let fault = refusal(rt.alloc(), text.as_bytes());
        assert!(rt; fault == Some(ScriptFault::Shape(field)), "{text}");
    }
}

/// Numbers, and whether the library holds them as whole ones.
const NUMBERS: [(&str, bool); 16] = [
    ("1.0", false),
    ("-0", false),
    ("1e0", false),
    ("1e5", false),
    ("0e999", false),
    ("1e-999", false),
    ("18446744073709551616", false),
    ("-9223372036854775809", false),
    ("2147483648", true),
    ("-2147483649", true),
    ("4294967296", true),
    ("9223372036854775807", true),
    ("9223372036854775808", true),
    ("18446744073709551615", true),
    ("-9223372036854775807", true),
    ("-9223372036854775808", true),
];

/// A text with a value in the place of the sign `#`.
fn filled(alloc: Global, text: &str, value: &str) -> Result<Vec<u8>, AllocError> {
    let mut filled = Vec::new(alloc);
    for byte in text.bytes() {
        if byte == b'#' {
            filled.extend_from_slice(value.as_bytes())?;
        } else {
            filled.push(byte)?;
        }
    }
    Ok(filled)
}

/// What reading a text answers with a value in the place of the sign.
fn refusal_with(alloc: Global, text: &str, value: &str) -> Option<ScriptFault> {
    match filled(alloc, text, value) {
        Ok(whole) => refusal(alloc, whole.as_slice()),
        Err(_) => Some(ScriptFault::Memory),
    }
}

/// Fields that have a number.
const WITH_NUMBER: [(&str, Field); 5] = [
    (
        "{\"natives\":[{\"name\":\"p\",\"result\":#}]}",
        Field::Result,
    ),
    ("{\"answers\":[{\"result\":#}]}", Field::Result),
    ("{\"answers\":[{\"error\":#}]}", Field::Error),
    (
        "{\"answers\":[{\"writes\":[{\"arg\":#,\"cells\":[]}]}]}",
        Field::Arg,
    ),
    (
        "{\"answers\":[{\"writes\":[{\"arg\":0,\"cells\":[0,#]}]}]}",
        Field::Cells,
    ),
];

/// What is wrong with a number there.
fn number_fault(field: Field, is_whole: bool) -> ScriptFault {
    if is_whole {
        ScriptFault::Range(field)
    } else {
        ScriptFault::Shape(field)
    }
}

#[test]
fn numbers_as_the_library_holds_them(rt: HostRuntime) {
    for (text, field) in WITH_NUMBER {
        for (number, is_whole) in NUMBERS {
            let wanted = Some(number_fault(field, is_whole));
            assert!(rt;
                refusal_with(rt.alloc(), text, number) == wanted,
                "{number}"
            );
        }
    }
}

/// Values outside their range, or of another form.
const OUTSIDE: [(&str, &str, ScriptFault); 21] = [
    (
        "{\"answers\":[{\"error\":#}]}",
        "1",
        ScriptFault::Range(Field::Error),
    ),
    (
        "{\"answers\":[{\"error\":#}]}",
        "12",
        ScriptFault::Range(Field::Error),
    ),
    (
        "{\"answers\":[{\"error\":#}]}",
        "128",
        ScriptFault::Range(Field::Error),
    ),
    (
        "{\"answers\":[{\"error\":#}]}",
        "-2",
        ScriptFault::Range(Field::Error),
    ),
    (
        "{\"answers\":[{\"error\":#}]}",
        "\"2\"",
        ScriptFault::Shape(Field::Error),
    ),
    (
        "{\"answers\":[{\"error\":#}]}",
        "null",
        ScriptFault::Shape(Field::Error),
    ),
    (
        "{\"answers\":[{\"writes\":[{\"cells\":[],\"arg\":#}]}]}",
        "-1",
        ScriptFault::Range(Field::Arg),
    ),
    (
        "{\"answers\":[{\"result\":#}]}",
        "true",
        ScriptFault::Shape(Field::Result),
    ),
    (
        "{\"natives\":[{\"name\":\"#\"}]}",
        "",
        ScriptFault::Range(Field::Name),
    ),
    (
        "{\"natives\":[{\"name\":\"abcdefghijklmnop#\"}]}",
        "abcdefghijklmnop",
        ScriptFault::Range(Field::Name),
    ),
    (
        "{\"natives\":[{\"name\":\"p\",\"forms\":[\"#\"]}]}",
        "cells:0",
        ScriptFault::Range(Field::Forms),
    ),
    (
        "{\"natives\":[{\"name\":\"p\",\"forms\":[\"#\"]}]}",
        "cells:4097",
        ScriptFault::Range(Field::Forms),
    ),
    (
        "{\"natives\":[{\"name\":\"p\",\"forms\":[\"#\"]}]}",
        "cells:4294967297",
        ScriptFault::Range(Field::Forms),
    ),
    (
        "{\"natives\":[{\"name\":\"p\",\"forms\":[\"#\"]}]}",
        "cells:99999999999999999999999",
        ScriptFault::Range(Field::Forms),
    ),
    (
        "{\"natives\":[{\"name\":\"p\",\"forms\":[\"#\"]}]}",
        "cells:01",
        ScriptFault::Shape(Field::Forms),
    ),
    (
        "{\"natives\":[{\"name\":\"p\",\"forms\":[\"#\"]}]}",
        "cells:",
        ScriptFault::Shape(Field::Forms),
    ),
    (
        "{\"natives\":[{\"name\":\"p\",\"forms\":[\"#\"]}]}",
        "cells:-1",
        ScriptFault::Shape(Field::Forms),
    ),
    (
        "{\"natives\":[{\"name\":\"p\",\"forms\":[\"#\"]}]}",
        "cells:+1",
        ScriptFault::Shape(Field::Forms),
    ),
    (
        "{\"natives\":[{\"name\":\"p\",\"forms\":[\"#\"]}]}",
        "cells: 1",
        ScriptFault::Shape(Field::Forms),
    ),
    (
        "{\"natives\":[{\"name\":\"p\",\"forms\":[\"#\"]}]}",
        "Cell",
        ScriptFault::Shape(Field::Forms),
    ),
    (
        "{\"natives\":[{\"name\":\"p\",\"rest\":\"#\"}]}",
        "cells:5000",
        ScriptFault::Range(Field::Rest),
    ),
];

#[test]
fn values_outside_their_range(rt: HostRuntime) {
    for (text, value, wanted) in OUTSIDE {
        assert!(rt;
            refusal_with(rt.alloc(), text, value) == Some(wanted),
            "{text} {value}"
        );
    }
}

fn put_times(all: &mut Vec<u8>, text: &str, count: usize) -> Result<(), AllocError> {
    for _ in 0..count {
        all.extend_from_slice(text.as_bytes())?;
    }
    Ok(())
}

/// Texts one behind another, each so many times.
fn repeated(alloc: Global, parts: &[(&str, usize)]) -> Result<Vec<u8>, AllocError> {
    let mut all = Vec::new(alloc);
    for (text, count) in parts {
        put_times(&mut all, *text, *count)?;
    }
    Ok(all)
}

/// What reading such a text answers.
fn refusal_of(alloc: Global, parts: &[(&str, usize)]) -> Option<ScriptFault> {
    match repeated(alloc, parts) {
        Ok(text) => refusal(alloc, text.as_slice()),
        Err(_) => Some(ScriptFault::Memory),
    }
}

#[test]
fn counts_of_forms(rt: HostRuntime) {
    let front = "{\"natives\":[{\"name\":\"p\",\"forms\":[\"cell\"";
    for (more, wanted) in [(63, None), (64, Some(ScriptFault::Range(Field::Forms)))] {
        let parts = [(front, 1), (",\"cell\"", more), ("]}]}", 1)];
        assert!(rt; refusal_of(rt.alloc(), &parts) == wanted, "{more}");
    }
}

#[test]
fn counts_of_answers(rt: HostRuntime) {
    for (more, wanted) in [
        (65_535, None),
        (65_536, Some(ScriptFault::Range(Field::Answers))),
    ] {
        let parts = [("{\"answers\":[{}", 1), (",{}", more), ("]}", 1)];
        assert!(rt; refusal_of(rt.alloc(), &parts) == wanted, "{more}");
    }
}

#[test]
fn depth_of_brackets(rt: HostRuntime) {
    for (depth, wanted) in [
        (127, ScriptFault::Shape(Field::Script)),
        (128, ScriptFault::Json),
    ] {
        let parts = [("[", depth), ("]", depth)];
        assert!(rt; refusal_of(rt.alloc(), &parts) == Some(wanted), "{depth}");
    }
}

/// A script with something of each kind.
const WHOLE: &str =
    "{\"others\":true,\"natives\":[{\"name\":\"ask\",\"forms\":[\"ref\",\"cells:3\"],\
    \"rest\":\"text\",\"result\":-2}],\"answers\":[{\"result\":7,\"writes\":[{\"arg\":1,\
    \"cells\":[5,-6]}]},{\"error\":21}]}";

fn is_ask(native: &Native) -> bool {
    native.name.as_slice() == b"ask".as_slice()
        && native.forms.as_slice() == [Form::Ref, Form::Cells(3)].as_slice()
        && native.rest == Some(Form::Text)
        && native.result == Some(-2)
}

fn is_write(write: &Write) -> bool {
    write.arg == 1 && write.cells.as_slice() == [5, -6].as_slice()
}

fn are_writes(writes: &[Write]) -> bool {
    match writes {
        [write] => is_write(write),
        _ => false,
    }
}

fn is_given(answer: &Answer) -> bool {
    match answer {
        Answer::Given { result, writes } => *result == 7 && are_writes(writes.as_slice()),
        Answer::Error(_) => false,
    }
}

fn is_error(answer: &Answer) -> bool {
    match answer {
        Answer::Given { .. } => false,
        Answer::Error(code) => *code == 21,
    }
}

fn has_native(script: &Script) -> bool {
    match script.natives.as_slice() {
        [native] => is_ask(native),
        _ => false,
    }
}

fn has_answers(script: &Script) -> bool {
    match script.answers.as_slice() {
        [first, second] => is_given(first) && is_error(second),
        _ => false,
    }
}

#[test]
fn what_a_script_holds(rt: HostRuntime) -> Result<(), Fail> {
    let script = read_script(rt.alloc(), WHOLE.as_bytes())?;
    assert!(rt; script.others && has_native(&script) && has_answers(&script));
    Ok(())
}

#[test]
fn numbers_of_refusals(rt: HostRuntime) {
    assert!(rt; ScriptFault::Json.number() == Some(130));
    assert!(rt; ScriptFault::Shape(Field::Name).number() == Some(131));
    assert!(rt; ScriptFault::Range(Field::Name).number() == Some(132));
    assert!(rt; ScriptFault::Memory.number().is_none());
}
