// Lines good and bad, each with what it says, written out by hand; and the sample entry there and back.
use crate::calls::Script;
use crate::line::{Line, Told};
use crate::sheet::Sheet;
use shown::bytes::Bytes;
use std::alloc::Global;
use std::test::Fail;

/// A line, and what it says.
#[derive(Clone, Copy)]
struct Case {
    line: &'static str,
    says: &'static str,
}

const GOOD: [Case; 16] = [
    Case {
        line: "new 0",
        says: "new 0",
    },
    Case {
        line: "new 65532",
        says: "new 65532",
    },
    Case {
        line: "  new\t0x1c \r",
        says: "new 28",
    },
    Case {
        line: "put 9 aA",
        says: "put 9 aa",
    },
    Case {
        line: "put 0x8002 -",
        says: "put 32770 -",
    },
    Case {
        line: "put 65535 00ff",
        says: "put 65535 00ff",
    },
    Case {
        line: "open 7",
        says: "open 7",
    },
    Case {
        line: "open 0xFFFF",
        says: "open 65535",
    },
    Case {
        line: "close",
        says: "close",
    },
    Case {
        line: "strike",
        says: "strike",
    },
    Case {
        line: "with 16777215 close",
        says: "with 16777215 close",
    },
    Case {
        line: "with 3  put 007 01",
        says: "with 3 put 7 01",
    },
    Case {
        line: "read",
        says: "read",
    },
    Case {
        line: "bytes ",
        says: "bytes",
    },
    Case {
        line: " \t",
        says: "nothing",
    },
    Case {
        line: " # put",
        says: "nothing",
    },
];

const BAD: [Case; 18] = [
    Case {
        line: "putt 9 aa",
        says: "no line of a script begins with this word",
    },
    Case {
        line: "New 4",
        says: "no line of a script begins with this word",
    },
    Case {
        line: "new",
        says: "new wants a number of bytes",
    },
    Case {
        line: "new 4 4",
        says: "new wants a number of bytes",
    },
    Case {
        line: "new 0x",
        says: "new wants a number of bytes",
    },
    Case {
        line: "new 1a",
        says: "new wants a number of bytes",
    },
    Case {
        line: "new 16777216",
        says: "new wants a number of bytes",
    },
    Case {
        line: "put",
        says: "put wants a word and a payload in hexadecimal",
    },
    Case {
        line: "put 9",
        says: "put wants a word and a payload in hexadecimal",
    },
    Case {
        line: "put 9 a",
        says: "put wants a word and a payload in hexadecimal",
    },
    Case {
        line: "put 9 aa bb",
        says: "put wants a word and a payload in hexadecimal",
    },
    Case {
        line: "put 65536 aa",
        says: "put wants a word and a payload in hexadecimal",
    },
    Case {
        line: "open 0x10000",
        says: "open wants a type",
    },
    Case {
        line: "close 1",
        says: "close, strike, read and bytes stand alone",
    },
    Case {
        line: "with close",
        says: "with wants a number of bytes and a call",
    },
    Case {
        line: "with 3",
        says: "with wants a number of bytes and a call",
    },
    Case {
        line: "with 3 new 4",
        says: "with wants a number of bytes and a call",
    },
    Case {
        line: "with 3 open",
        says: "open wants a type",
    },
];

/// A call in words.
fn told(heap: Global, told: &Told) -> Result<String, Fail> {
    Ok(match told {
        Told::Put(word, payload) => {
            let payload = Bytes(payload.as_slice());
            format!(in heap; "put {word} {payload}")?
        }
        Told::Open(kind) => format!(in heap; "open {kind}")?,
        Told::Close => format!(in heap; "close")?,
        Told::Strike => format!(in heap; "strike")?,
    })
}

/// What a line says, or what is wrong with it, in words.
fn said(heap: Global, line: &str) -> Result<String, Fail> {
    Ok(match Line::read(heap, line.as_bytes()) {
        Ok(Line::New(size)) => format!(in heap; "new {size}")?,
        Ok(Line::Call(call)) => told(heap, &call)?,
        Ok(Line::With(size, call)) => {
            let call = told(heap, &call)?;
            format!(in heap; "with {size} {call}")?
        }
        Ok(Line::Read) => format!(in heap; "read")?,
        Ok(Line::Bytes) => format!(in heap; "bytes")?,
        Ok(Line::Nothing) => format!(in heap; "nothing")?,
        Err(wrong) => format!(in heap; "{wrong}")?,
    })
}

#[test]
fn good_lines(rt: HostRuntime) -> Result<(), Fail> {
    for case in GOOD.iter() {
        assert_eq!(rt; said(rt.alloc(), case.line)?.as_str(), case.says);
    }
    Ok(())
}

#[test]
fn bad_lines(rt: HostRuntime) -> Result<(), Fail> {
    for case in BAD.iter() {
        assert_eq!(rt; said(rt.alloc(), case.line)?.as_str(), case.says);
    }
    Ok(())
}

/// The written form of a filter with a class, a list of attributes in an action, and options under one of them.
const WRITTEN: [u8; 36] = [
    8, 0, 1, 0, 1, 0, 1, 0, 28, 0, 7, 0, 24, 0, 1, 0, 12, 0, 2, 0x80, 5, 0, 9, 0, 0xaa, 0, 0, 0, 8,
    0, 1, 0, b'n', b'a', b't', 0,
];

const CALLS: &str = "new 36
put 0x0001 01000100
open 7
open 1
open 2
put 0x0009 aa
close
put 0x0001 6e617400
close
close
read
bytes
";

/// Takes a line of a script, and tells whether it was obeyed.
fn obeyed(heap: Global, sheet: &mut Option<Sheet>, text: &[u8]) -> Result<bool, Fail> {
    Ok(match Line::read(heap, text) {
        Ok(Line::New(size)) => {
            *sheet = Sheet::new(vec![in heap; 0u8; size as usize]?).ok();
            sheet.is_some()
        }
        Ok(Line::Call(call)) => match sheet {
            Some(sheet) => sheet.make(call.call()).is_ok(),
            None => false,
        },
        Ok(Line::Read | Line::Bytes | Line::Nothing) => true,
        Ok(Line::With(_size, _told)) => false,
        Err(_wrong) => false,
    })
}

/// The page's bytes behind a script, and whether each line was obeyed.
fn built(heap: Global, script: &str) -> Result<String, Fail> {
    let mut sheet = None;
    let mut all = true;
    for text in script.as_bytes().split(|c| *c == b'\n') {
        all = obeyed(heap, &mut sheet, text)? && all;
    }
    match &sheet {
        Some(sheet) => {
            let bytes = Bytes(sheet.bytes());
            Ok(format!(in heap; "{bytes} {all}")?)
        }
        None => Ok(format!(in heap; "no page {all}")?),
    }
}

#[test]
fn there_and_back(rt: HostRuntime) -> Result<(), Fail> {
    let script = Script::of(rt.alloc(), WRITTEN.as_slice()).ok();
    let text = match script {
        Some(script) => format!(in rt.alloc(); "{script}")?,
        None => String::new(rt.alloc()),
    };
    assert_eq!(rt; text.as_str(), CALLS);
    let bytes = Bytes(WRITTEN.as_slice());
    let whole = format!(in rt.alloc(); "{bytes} true")?;
    assert_eq!(rt; built(rt.alloc(), text.as_str())?.as_str(), whole.as_str());
    Ok(())
}
