//! The forms that include other books, as a survey meets them.

use explain_findings::head_of;
use gl_logic::{TextId, Texts, Tree, TreeKind};

/// The name in `(include-book "s")`, of whatever bytes.
pub(crate) fn included(texts: &Texts, form: &Tree) -> Option<TextId> {
    if !form.tail().is_nil() || head_of(texts, form) != b"INCLUDE-BOOK".as_slice() {
        return None;
    }
    match form.elements() {
        [name, _head] => match name.kind() {
            TreeKind::Text(text) => Some(text),
            _ => None,
        },
        _ => None,
    }
}
