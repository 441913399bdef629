//! What stays the same while a form is translated.

ghost use Rattle.std.specs.Prelude.{◌≡◌, ◌+◌, ◌^◌, ◌<◌, bytes_eq, List, [], ◌∷◌, ◌++◌, map, length, Some, IfSome, OnOk, IfErr};
ghost use Rattle.std.specs.List.{position_or_len};
ghost use Rattle.std.specs.Option.{option_map};
ghost use Rattle.gl_logic.specs.Names.{number_of};
ghost use Rattle.gl_translate.specs.Translation.{head_name};

use super::fault::TermFault;
use super::own_definitions::Owns;
use super::scope::Scope;
use gl_logic::wording::{self, is_mark};
use gl_logic::{FnId, TextId, Texts, Tree, TreeKind, World};
use std::alloc::Global;

/// The number of `binary-append`, a ground definition.
pub(crate) const BINARY_APPEND: FnId = FnId { number: 27 };

/// The number of `member-equal`, a ground definition.
pub(crate) const MEMBER_EQUAL: FnId = FnId { number: 31 };

/// What stays the same while a form is translated.
#[derive(Drop)]
pub struct Context<'a> {
    /// Where forms and constants are made.
    pub alloc: Global,
    /// The definitions and the constants.
    pub world: &'a World,
    /// The definitions that are being made, whose numbers stand behind the world's.
    pub own: &'a Owns,
    /// The texts of symbols.
    pub texts: &'a Texts,
    /// The symbol of the empty name, which the variable of a `case` has and no token spells.
    pub unnamed: TextId,
    /// Whether every legal variable is in scope, as in a theorem.
    pub every: bool,
    ghost no_name: { unnamed.number ≡ position_or_len (bytes_eq []) texts.now },
    ghost numbered: { length world.now.definitions + length own.now < 2 ^ 64 },
}

impl<'a> Context<'a> {
    ghost use Rattle.std.specs.Prelude.{◌≤◌};
    ghost use Rattle.std.specs.Option.{IfNone};
    ghost use Rattle.gl_translate.specs.Translation.{setting_of};
    ghost use Rattle.gl_translate.specs.Contexts.{setting_in};

    /// The context of a world, a scope and a table of texts in which this symbol has the empty name.
    /// None where more definitions exist than can be numbered.
    pub fn new(
        alloc: Global,
        world: &'a World,
        scope: &'a Scope,
        texts: &'a Texts,
        unnamed: TextId,
    ) -> Option<Context<'a>>
        requires { number_of [] texts.now ≡ Some unnamed.number }
        ensures setting { IfSome result (λ c. setting_in c ≡ setting_of texts.now world.now scope.now.every scope.now.own) }
        ensures none { IfNone result (2 ^ 64 ≤ length world.now.definitions + length scope.now.own) }
    {
        if scope.own.len() > u64::MAX - world.count() {
            return None;
        }
        Some(Context {
            alloc,
            world,
            own: &scope.own,
            texts,
            unnamed,
            every: scope.every,
        })
    }
}

impl Context<'_> {
    ghost use Rattle.gl_logic.specs.Wording.{is_keyword as keyword_is, is_legal as legal_is, spells as is_spelled};
    ghost use Rattle.gl_translate.specs.Setting.{stands_for_itself as stands};
    ghost use Rattle.gl_translate.specs.Meaning.{Meaning, count_at, number_named, numbered_call, fault};
    ghost use Rattle.gl_translate.specs.Macros.{is_keyword_object as keyword_object_is};
    ghost use Rattle.gl_translate.specs.Contexts.{setting_in};

    /// Whether a symbol is a keyword.
    pub(crate) fn is_keyword(&self, name: TextId) -> bool
        ensures { result ≡ keyword_is (setting_in self.now).names name.number }
    {
        wording::is_keyword(self.texts, name)
    }

    /// Whether a symbol is NIL, T or a keyword.
    pub(crate) fn stands_for_itself(&self, name: TextId) -> bool
        ensures { result ≡ stands (setting_in self.now) name.number }
    {
        name.number < 2 || self.is_keyword(name)
    }

    /// Whether a symbol may be a variable.
    pub(crate) fn is_legal(&self, name: TextId) -> bool
        ensures { result ≡ legal_is (setting_in self.now).names name.number }
    {
        wording::is_legal(self.texts, name)
    }

    /// Whether an object is the symbol with this text.
    pub(crate) fn spells(&self, word: &[u8], object: &Tree) -> bool
        ensures { result ≡ is_spelled (setting_in self.now).names word.now object.now }
    {
        wording::spells(self.texts, word, object)
    }

    /// The number of the definition of a name: the world's, or else one that is being made.
    pub(crate) fn find(&self, name: TextId) -> Option<FnId>
        ensures { option_map (λ f. f.number) result ≡ number_named (setting_in self.now) name.number }
    {
        match self.world.find(name) {
            Some(f) => Some(f),
            None => match self.own.place(name) {
                Some(place) => Some(FnId {
                    number: self.world.count() + place,
                }),
                None => None,
            },
        }
    }

    /// Refuses a call with so many arguments of what is no definition or takes another count.
    pub(crate) fn takes(&self, f: FnId, count: u64) -> Result<(), TermFault>
        ensures ok { OnOk result (count_at ((setting_in self.now).functions ++ (setting_in self.now).own) f.number ≡ Some count) }
        ensures err { IfErr result (λ e. (ms : List Meaning) → length ms ≡ count → numbered_call (setting_in self.now) f.number ms ≡ fault e) }
    {
        match self.formals_of(f) {
            Some(formals) => {
                if formals == count {
                    Ok(())
                } else {
                    Err(TermFault::WrongCount)
                }
            }
            None => Err(TermFault::UnknownFunction),
        }
    }

    /// The same with two arguments.
    pub(crate) fn takes_two(&self, f: FnId) -> Result<(), TermFault>
        ensures ok { OnOk result (count_at ((setting_in self.now).functions ++ (setting_in self.now).own) f.number ≡ Some 2) }
        ensures err { IfErr result (λ e. (a b : Meaning) → numbered_call (setting_in self.now) f.number (a ∷ b ∷ []) ≡ fault e) }
    {
        self.takes(f, 2)
    }

    /// Whether an object is a keyword.
    pub(crate) fn is_keyword_object(&self, object: &Tree) -> bool
        ensures { result ≡ keyword_object_is (setting_in self.now) object.now }
    {
        match object.kind() {
            TreeKind::Symbol(name) => self.is_keyword(name),
            _ => false,
        }
    }

    /// How many formals a definition has.
    pub(crate) fn formals_of(&self, f: FnId) -> Option<u64>
        ensures { result ≡ count_at ((setting_in self.now).functions ++ (setting_in self.now).own) f.number }
    {
        if f.number < self.world.count() {
            Some(self.world.def(f).formals.len())
        } else {
            self.own.formals_at(f.number - self.world.count())
        }
    }
}

/// The name of a form's head; None where it is no symbol or a mark.
pub(crate) fn head_of(head: &Tree) -> Option<TextId>
    ensures { option_map (λ t. t.number) result ≡ head_name head.now }
{
    match head.kind() {
        TreeKind::Symbol(name) => { if is_mark(name) { None } else { Some(name) } }
        _ => None,
    }
}
