//! Where a name was taken.

use crate::places::Places;
use book_shelf::{Item, Library};
use explain_findings::name_in;
use explain_report::Report;
use gl_logic::{TextId, Texts, Tree, World};

/// Whether a form is another one, or a clique with that member.
fn has(form: &Tree, other: &Tree) -> bool {
    if form.same(other) {
        return true;
    }
    for member in form.elements() {
        if member.same(other) {
            return true;
        }
    }
    false
}

/// The number of the first item in front of one whose form this is, or which has it as a member.
fn item_of(library: &Library, form: &Tree, end: u64) -> Option<u64> {
    for item in 0..end {
        if item >= library.items.len() {
            return None;
        }
        if let Item::Form(other) = library.items.at(item) {
            if has(&other.tree, form) {
                return Some(item);
            }
        }
    }
    None
}

/// The number of the item in front of one that took a name, as the world behind those has noted it.
fn taken_by(library: &Library, world: &World, name: TextId, end: u64) -> Option<u64> {
    item_of(library, world.noted(name)?, end)
}

/// Puts where a name was taken in front of an item. Whether it was taken by an item.
fn put_taken(
    report: &mut Report,
    library: &Library,
    places: &Places,
    world: &World,
    texts: &Texts,
    name: TextId,
    item: u64,
) -> bool {
    let Some(number) = taken_by(library, world, name, item) else {
        return false;
    };
    let Some(place) = places.items.get(number as usize) else {
        return false;
    };
    report.place(places.file(*place), place.line as u64, place.column as u64);
    report.say("`");
    report.text(texts.text(name));
    report.say("` is taken here\n");
    true
}

/// Puts where the first name of a clique's members that was taken in front of an item was taken. Whether one was.
fn put_member_taken(
    report: &mut Report,
    library: &Library,
    places: &Places,
    world: &World,
    texts: &Texts,
    clique: &Tree,
    item: u64,
) -> bool {
    for member in clique.elements() {
        if let Some(name) = name_in(member) {
            if put_taken(report, library, places, world, texts, name, item) {
                return true;
            }
        }
    }
    false
}

/// Puts where the name of an item was taken, or that of a member of its clique.
pub(crate) fn put_earlier(
    report: &mut Report,
    library: &Library,
    places: &Places,
    world: &World,
    texts: &Texts,
    item: u64,
) {
    if item >= library.items.len() {
        return;
    }
    let Item::Form(form) = library.items.at(item) else {
        return;
    };
    let form = &form.tree;
    let is_told = match name_in(form) {
        Some(name) => put_taken(report, library, places, world, texts, name, item),
        None => put_member_taken(report, library, places, world, texts, form, item),
    };
    if !is_told {
        report.say(
            "   = note: it is a primitive, a macro, or a definition that each book begins with\n",
        );
    }
}
