//! The codes of refusals, and what each means in words.

use book_shelf::ShelfCode;
use event_world::EventFault;
use explain_findings::FormFault;
use gl_book::Cause;
use gl_translate::TermFault;
use sexp_reader::ReadCode;

/// Why a book is refused at a place.
#[derive(Clone, Copy, Debug, PartialEq, Eq)]
pub(crate) enum Fault {
    /// A fault of a text, or of the list of texts.
    Shelf(ShelfCode),
    /// A form is refused.
    Form(FormFault),
}

/// A code, what it means, and what to do.
#[derive(Clone, Copy)]
pub(crate) struct Wording {
    pub code: &'static str,
    pub title: &'static str,
    pub help: &'static str,
}

/// What is said of a code: its title, and what helps.
fn said(code: &'static str, title: &'static str, help: &'static str) -> Wording {
    Wording { code, title, help }
}

/// The words of a fault.
pub(crate) fn words_of(fault: Fault) -> Wording {
    match fault {
        Fault::Shelf(ShelfCode::Text(code)) => words_of_text(code),
        Fault::Shelf(ShelfCode::TooLong) => said(
            "S10",
            "the text has more than 4,194,304 bytes, and none of its forms is processed",
            "put parts into books of their own and include them",
        ),
        Fault::Shelf(ShelfCode::Cyclic) => said(
            "V14",
            "this book is included while it is being read",
            "no book includes itself, also not through others: move what both need into a third",
        ),
        Fault::Shelf(ShelfCode::Many) => said(
            "V15",
            "this would be the 65th text of the book",
            "at most 64 different texts are read: join small ones",
        ),
        Fault::Form(FormFault::Event(fault)) => words_of_event(fault),
        Fault::Form(FormFault::Constant(cause)) => words_of_constant(cause),
    }
}

/// What is said of a fault of a text.
fn words_of_text(code: ReadCode) -> Wording {
    match code {
        ReadCode::EndInside => said(
            "S1",
            "the text ends inside a list, a string, a comment or behind a quote",
            "look where the lines begin to be indented less than they should be",
        ),
        ReadCode::StrayClose => said(
            "S2",
            "a `)` where no list is open, or right behind a quote",
            "take it out, or look in the form before it for the `(` that is missing",
        ),
        ReadCode::BadDot => said(
            "S3",
            "a dot that is no dot of a pair",
            "a dot stands behind one element at least and in front of the last, as in `(a . b)`",
        ),
        ReadCode::BadByte => said(
            "S4",
            "a byte that cannot stand there",
            "bars, backslashes, `,@`, letters beyond ASCII and names of other packages are not in the language",
        ),
        ReadCode::WideNumber => said(
            "S5",
            "an integer below -2^127 or above 2^127 - 1",
            "integers have 128 bits: hold a wider one as two words",
        ),
        ReadCode::NumberForm => said(
            "S6",
            "a number that is no integer",
            "the universe has integers alone: scale, or give a name such as `1e5` another one",
        ),
        ReadCode::BadHash => said(
            "S7",
            "a `#` that begins no character, no integer of base 2, 8 or 16 and no comment",
            "write `#xff` for `#ux_ff`, nothing for `#+acl2`, and the term itself for `#.*c*`, `#.(f 8)` and `'#.*c*`; as a key of `case`, inside a quoted list or in a shape, its value",
        ),
        ReadCode::TooDeep => said(
            "S8",
            "a parenthesis or a quote inside 1,000 others",
            "use `and`, `or`, `list`, `+` with many arguments, or name inner parts by `defun` or `let*`",
        ),
        ReadCode::LongName => said(
            "S9",
            "a name of more than 255 bytes",
            "give it a shorter name",
        ),
    }
}

/// What is said of a fault of a term.
fn words_of_term(fault: TermFault) -> Wording {
    match fault {
        TermFault::UnknownFunction => said(
            "V4",
            "is no macro, no primitive and no definition here",
            "a function of your own is defined in front of its use; two that call each other go into one `mutual-recursion`",
        ),
        TermFault::WrongCount => said("V5", "takes another number of arguments", ""),
        TermFault::UnboundVariable => said(
            "V6",
            "is no constant, and no variable in scope",
            "in a `defun` its formals are in scope, and what `let` binds; a constant needs its `defconst` in front",
        ),
        TermFault::BadUse => said(
            "V7",
            "is malformed here",
            "a binding is `(name form)`, a `cond` clause has one or two forms, `case` has `t` in its last clause alone, a formal is no constant and stands once, a head is a name",
        ),
        TermFault::TooDeep => said(
            "V12",
            "stands inside 2,000 others, after macros are taken apart",
            "quote a long `list`, append pieces, and part a long `and` or `or` by functions",
        ),
        TermFault::Memory => said("memory", "takes more memory than there is", ""),
    }
}

/// What is said of a form that means no event.
fn words_of_event(fault: EventFault) -> Wording {
    match fault {
        EventFault::UnknownEvent => said(
            "V1",
            "is no event",
            "events are `defun`, `mutual-recursion`, `defconst`, `value-triple`, `assert-event`, `memoize`, `unmemoize`, `def-gl-thm`, `def-gl-param-thm`, `include-book`, `in-package` and the modes of GL",
        ),
        EventFault::BadEvent => said(
            "V2",
            "lacks a part, has one too many, or a name that it cannot have",
            "look for a keyword without its value, a required option that is left out, a name that is no symbol, a quote that is missing in `(memoize 'f)`",
        ),
        EventFault::Redefined => said(
            "V3",
            "is a name that is taken",
            "choose another; the same form again would be no fault",
        ),
        EventFault::Term(fault) => words_of_term(fault),
        EventFault::NotAdmitted(_) => said(
            "V8",
            "is a recursive call under which no measure is shown to fall",
            "steps: `(- n 1)` where `(zp n)` is false, `(cdr l)` where `(endp l)` is false or `(consp l)` holds, `(floor n 2)` or `(ash n -1)` where `(zp n)` is false; to count up to n, state `(declare (xargs :measure (nfix (- n i))))` and test `(zp (- n i))`; else, and in a `mutual-recursion`, add a formal that counts down at each call",
        ),
        EventFault::BadBindings => said(
            "V10",
            "are no bindings, or lack a variable of the theorem",
            "each variable of `:hyp` and `:concl` needs a shape, no index stands twice, none is 1,000,000 or more, and there are at most 1,024",
        ),
        EventFault::BadOption => said(
            "V11",
            "is an option, a keyword or a declaration that there is not, one given twice, or one with another value",
            "leave out what is not among these: a theorem has `:hyp`, `:concl`, `:g-bindings`, `:hyp-clk` and `:concl-clk`, and one by cases `:param-hyp`, `:param-bindings` and `:cov-bindings` in place of `:g-bindings`; `xargs` has `:measure`, which is `(acl2-count v)`, `(len v)`, `(nfix v)`, `(nfix (- b a))` or `(make-ord 1 (+ 1 m) n)` of two of these",
        ),
        EventFault::BadCases => said(
            "V13",
            "are no cases",
            "each is `(((parameter object) ..) bindings)` with bindings as `((x ,(g-int 0 1 9)) ..)` under a backquote and no `auto-bindings`, there are 1 to 64, all have the same parameters in the same order, and no parameter is a name that `:hyp`, `:concl` or the bindings use",
        ),
        EventFault::Memory => said("memory", "takes more memory than there is", ""),
    }
}

/// What is said of a constant without a value.
fn words_of_constant(cause: Cause) -> Wording {
    match cause {
        Cause::Width => said(
            "V9",
            "has no value: some integer on the way is outside 128 bits",
            "mask before you shift; `(lognot (ash -1 127))` is the mask of 127 bits",
        ),
        Cause::Steps => said(
            "V9",
            "has no value: its evaluation visits more subterms than `--steps` says",
            "raise `--steps`, up to 99999999, or memoize what is called again and again",
        ),
        Cause::Cells => said(
            "V9",
            "has no value: its evaluation makes more objects than `--cells` says",
            "raise `--cells`, up to 4000000",
        ),
        Cause::Size => said(
            "V9",
            "has a value that is too large to print",
            "keep a part of it, or compute it where it is used",
        ),
        Cause::Memory => said("memory", "takes more memory than there is", ""),
    }
}
