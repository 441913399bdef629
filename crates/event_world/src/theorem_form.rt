//! The parts of a theorem's form.

ghost use Rattle.std.specs.Prelude.{◌≡◌, IfOk};
ghost use Rattle.std.specs.Option.{option_map, option_copied};
ghost use Rattle.event_world.specs.TheoremForms.{required_in, theorem_parts};
ghost use Rattle.event_world.specs.TheoremMeant.{clock_of, clocks_meant};
ghost use Rattle.event_world.specs.KeywordTexts.{texts_of};
ghost use Rattle.event_world.specs.FormsSeen.{theorem_form_seen};

use super::keyword_table::KeywordTable;
use super::keywords::{Keywords, pairs_of};
use super::names::plain_name;
use super::parts::Parts;
use gl_logic::{NoMemory, TextId, Texts, Tree, TreeKind};
use std::alloc::Global;

/// The parts of `(def-gl-thm n :key value ..)`.
#[derive(Drop)]
pub(crate) struct TheoremForm<'a> {
    /// The name.
    pub(crate) name: TextId,
    /// The hypothesis, where there is one.
    pub(crate) hyp: Option<&'a Tree>,
    /// The conclusion.
    pub(crate) concl: &'a Tree,
    /// The bindings.
    pub(crate) bindings: &'a Tree,
    /// All options.
    pub(crate) options: Keywords<'a>,
}

/// The parts of a theorem, by what stands behind `def-gl-thm`.
pub(crate) fn theorem_form<'a>(
    alloc: Global,
    texts: &Texts,
    parts: &Parts<'a>,
) -> Result<Option<TheoremForm<'a>>, NoMemory>
    ensures { IfOk result (λ o. option_map theorem_form_seen o ≡ theorem_parts texts.now parts.now) }
{
    let Some((object, behind)) = parts.first() else {
        return Ok(None);
    };
    let Some(name) = plain_name(texts, object) else {
        return Ok(None);
    };
    let Some(options) = pairs_of(alloc, texts, &behind)? else {
        return Ok(None);
    };
    Ok(with_required(texts, name, options))
}

/// The same, by its name and its options.
fn with_required<'a>(texts: &Texts, name: TextId, options: Keywords<'a>) -> Option<TheoremForm<'a>>
    ensures { option_map theorem_form_seen result ≡ required_in texts.now name.number options.entry }
{
    let Some(concl) = options.value(texts, b":CONCL") else {
        drop(options);
        return None;
    };
    let Some(bindings) = options.value(texts, b":G-BINDINGS") else {
        drop(options);
        return None;
    };
    Some(TheoremForm {
        name,
        hyp: options.value(texts, b":HYP"),
        concl,
        bindings,
        options,
    })
}

/// A clock: an integer from 1 to 1,000,000, and that where none is given.
fn clock(value: Option<&Tree>) -> Option<u32>
    ensures { result ≡ clock_of (option_copied value.entry) }
{
    match value {
        None => Some(1_000_000),
        Some(form) => match form.kind() {
            TreeKind::Int(i) => {
                if 1 <= i && i <= 1_000_000 {
                    Some(i as u32)
                } else {
                    None
                }
            }
            _ => None,
        },
    }
}

/// The clocks of a theorem, of its hypothesis and of its conclusion; None where an option is none of the table,
/// stands twice, or is no clock.
pub(crate) fn clocks(
    alloc: Global,
    texts: &Texts,
    table: KeywordTable,
    options: &Keywords<'_>,
) -> Result<Option<(u32, u32)>, NoMemory>
    ensures { IfOk result (λ o. option_map (λ p. (p.0, p.1)) o ≡ clocks_meant texts.now (texts_of table) options.now) }
{
    if !options.are_of(alloc, texts, table)? {
        return Ok(None);
    }
    let Some(hyp) = clock(options.value(texts, b":HYP-CLK")) else {
        return Ok(None);
    };
    let Some(concl) = clock(options.value(texts, b":CONCL-CLK")) else {
        return Ok(None);
    };
    Ok(Some((hyp, concl)))
}
