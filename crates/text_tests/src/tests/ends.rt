//! How texts end, and how many forms stand before the end.

use super::end_of;
use gl_logic::NoMemory;
use std::alloc::Global;
use std::process::Abort;
use std::test::Fail;

/// Refused texts, with the line, the column and the cause of the first fault.
const REFUSED: &str = "\
== (value-triple 1) ' => Bad(1, 19, EndInside)
== '.\n => Bad(1, 2, BadDot)
== (a . . b)\n => Bad(1, 6, BadDot)
== (a . b #xg)\n => Bad(1, 8, BadHash)
== (a . b ..)\n => Bad(1, 8, BadDot)
== (a . b 170141183460469231731687303715884105728)\n => Bad(1, 8, WideNumber)
== (value-triple 'a#|b|#)\n => Bad(1, 18, BadByte)
== (value-triple '1/2)\n => Bad(1, 16, NumberForm)
== (value-triple '-.5e3)\n => Bad(1, 16, NumberForm)
== (value-triple '2F7)\n => Bad(1, 16, NumberForm)
== (value-triple (list 1 #o8 ))\n => Bad(1, 23, BadHash)
== (value-triple (list 1 ## ))\n => Bad(1, 23, BadHash)
== (value-triple (list 1 #(1) ))\n => Bad(1, 23, BadHash)
== (value-triple '#x80000000000000000000000000000000)\n => Bad(1, 16, WideNumber)
== (value-triple '##a)\n => Bad(1, 16, BadHash)
== (value-triple \"a\x7f\")\n => Bad(1, 17, BadByte)
== (value-triple 'foo::b)\n => Bad(1, 19, BadByte)
== (value-triple 'a |#)\n => Bad(1, 18, BadByte)
== (value-triple 170141183460469231731687303715884105728)\n => Bad(1, 15, WideNumber)
== (value-triple 1)\n(value-triple (cons 1 2)\n => Bad(3, 1, EndInside)
== ) => Bad(1, 1, StrayClose)
== a\n ) => Bad(2, 2, StrayClose)
== ') => Bad(1, 2, StrayClose)
== (' ; x\n) => Bad(2, 1, StrayClose)
== . a => Bad(1, 1, BadDot)
== ( . a) => Bad(1, 3, BadDot)
== (a . ) => Bad(1, 6, BadDot)
== (a . b c) => Bad(1, 8, BadDot)
== (a . b 'c) => Bad(1, 8, BadDot)
== (a . b (c)) => Bad(1, 8, BadDot)
== (a . b \"c\") => Bad(1, 8, BadDot)
== (a . b c:d) => Bad(1, 8, BadDot)
== (a . b \"c => Bad(1, 8, BadDot)
== ... => Bad(1, 1, BadDot)
== (a . b #| c => Bad(1, 12, EndInside)
== (a . b # => Bad(1, 9, EndInside)
== (a . b => Bad(1, 7, EndInside)
== (a . b #\\ => Bad(1, 8, BadDot)
== a #| b #| c |# d => Bad(1, 17, EndInside)
== #| a\n b => Bad(2, 3, EndInside)
== \"a\n => Bad(2, 1, EndInside)
== \"a\\\" => Bad(1, 5, EndInside)
== ' => Bad(1, 2, EndInside)
== # => Bad(1, 2, EndInside)
== #\\ => Bad(1, 3, EndInside)
== `(a , => Bad(1, 6, EndInside)
== a\\b => Bad(1, 2, BadByte)
== |a| => Bad(1, 1, BadByte)
== \x01 => Bad(1, 1, BadByte)
== \x7f => Bad(1, 1, BadByte)
== ,@a => Bad(1, 2, BadByte)
== a:b => Bad(1, 2, BadByte)
== : => Bad(1, 1, BadByte)
== ::a => Bad(1, 1, BadByte)
== :a:b => Bad(1, 1, BadByte)
== acl2:: => Bad(1, 6, BadByte)
== gl:::a => Bad(1, 5, BadByte)
== \"a\x0bb\" => Bad(1, 3, BadByte)
== \"a\\\x0b\" => Bad(1, 4, BadByte)
== -170141183460469231731687303715884105729 => Bad(1, 1, WideNumber)
== #b1# => Bad(1, 1, BadHash)
== #\\ab => Bad(1, 1, BadHash)
== #\\\n => Bad(1, 1, BadHash)
== #a => Bad(1, 1, BadHash)
== #'a => Bad(1, 1, BadHash)
== #+1 => Bad(1, 1, BadHash)
== 1.5 => Bad(1, 1, NumberForm)
== -1/ => Bad(1, 1, NumberForm)
== .5 => Bad(1, 1, NumberForm)
== +.5d-2 => Bad(1, 1, NumberForm)
== 1e5 => Bad(1, 1, NumberForm)
== 1.l+07 => Bad(1, 1, NumberForm)
";

/// Four megabytes of comments, of one string, of forms, of tokens of 255 bytes, of one list, and of what has no end.
const LONG: &str = "\
== #|{4194300 x}|# => Clean, 0 forms
== #|{800000 #| |#}|# => Clean, 0 forms
== ;{4194303 x} => Clean, 0 forms
== \"{4194302 x}\" => Clean, 1 forms
== {2097152 1 } => Clean, 2097152 forms
== {16384 aaaaaaaaaaaaaaaaaaaaaaaaaaaaaaaaaaaaaaaaaaaaaaaaaaaaaaaaaaaaaaaaaaaaaaaaaaaaaaaaaaaaaaaaaaaaaaaaaaaaaaaaaaaaaaaaaaaaaaaaaaaaaaaaaaaaaaaaaaaaaaaaaaaaaaaaaaaaaaaaaaaaaaaaaaaaaaaaaaaaaaaaaaaaaaaaaaaaaaaaaaaaaaaaaaaaaaaaaaaaaaaaaaaaaaaaaaaaaaaaaaaaaaaaaaaaaaa } => Clean, 16384 forms
== ({1000000 1 }) => Clean, 1 forms
== #|{2000000 #|} => Bad(1, 4000003, EndInside), 0 forms
== \"{4000000 \n} => Bad(4000001, 1, EndInside), 0 forms
== ({2000000 \n1} => Bad(2000001, 2, EndInside), 0 forms
== {4194304 1} => Bad(1, 1, WideNumber), 0 forms
== {4194304 (} => Bad(1, 1001, TooDeep), 0 forms
== {4194304 '} => Bad(1, 1001, TooDeep), 0 forms
";

/// Parentheses and prefixes at the bound of 1,000, and names at that of 255 bytes.
const BOUNDS: &str = "\
== {1001 (}x => Bad(1, 1001, TooDeep), 0 forms
== {1001 '}x => Bad(1, 1001, TooDeep), 0 forms
== {1001 `}x => Bad(1, 1001, TooDeep), 0 forms
== {1001 ,}x => Bad(1, 1001, TooDeep), 0 forms
== {1000 '}x => Clean, 1 forms
== {1000 `}x => Clean, 1 forms
== {1000 ,}x => Clean, 1 forms
== {500 ('}x => Bad(1, 1002, EndInside), 0 forms
== {501 ('} => Bad(1, 1001, TooDeep), 0 forms
== {1000 (},@ => Bad(1, 1001, TooDeep), 0 forms
== {999 (},@ => Bad(1, 1001, BadByte), 0 forms
== {1000 (}a . b ( => Bad(1, 1007, TooDeep), 0 forms
== {999 (}a . b ( => Bad(1, 1006, BadDot), 0 forms
== {256 a} => Bad(1, 1, LongName), 0 forms
== gl::{255 a} => Clean, 1 forms
== gl::{256 a} => Bad(1, 1, LongName), 0 forms
== :{254 a} => Clean, 1 forms
== :{255 a} => Bad(1, 1, LongName), 0 forms
== {1000 (}{1000 )} => Clean, 1 forms
";

/// The text in which `{9 part}` stands for nine times the part.
fn text_of(alloc: Global, source: &str) -> Result<Vec<u8>, NoMemory> {
    let mut text = Vec::new(alloc);
    for (place, piece) in source.split('{').enumerate() {
        if place == 0 {
            text.extend_from_slice(piece.as_bytes())?;
        } else {
            put_parts(&mut text, piece)?;
        }
    }
    Ok(text)
}

/// Puts what `9 part}` and the rest behind it stand for.
fn put_parts(text: &mut Vec<u8>, piece: &str) -> Result<(), NoMemory> {
    let (parts, rest) = piece.split_once('}').unwrap_or((piece, ""));
    let (count, part) = parts.split_once(' ').unwrap_or((parts, ""));
    for _ in 0..count.parse().unwrap_or(0usize) {
        text.extend_from_slice(part.as_bytes())?;
    }
    text.extend_from_slice(rest.as_bytes())?;
    Ok(())
}

/// The end of a text, and how many forms stand before it, in words.
fn told(alloc: Global, text: &[u8]) -> Result<String, NoMemory> {
    match end_of(alloc, text)? {
        Some((end, forms)) => Ok(format!(in alloc; "{end:?}, {forms} forms")?),
        None => Ok(String::new(alloc)),
    }
}

/// A row is `== TEXT => END`, with how many forms stand before the end where that is known.
fn try_rows(rt: &impl Abort, alloc: Global, rows: &str) -> Result<(), NoMemory> {
    for row in rows.split("== ").skip(1) {
        let (source, wanted) = row.trim_end().split_once(" => ").expect(rt, row);
        let text = text_of(alloc, source)?;
        let end = told(alloc, text.as_slice())?;
        assert!(rt; end.as_str().starts_with(wanted), "{row}: {end}");
    }
    Ok(())
}

#[test]
fn refused_texts_and_bounds(rt: HostRuntime) -> Result<(), Fail> {
    try_rows(&rt, rt.alloc(), REFUSED)?;
    Ok(try_rows(&rt, rt.alloc(), BOUNDS)?)
}

#[test]
fn four_megabytes(rt: HostRuntime) -> Result<(), Fail> {
    Ok(try_rows(&rt, rt.alloc(), LONG)?)
}
