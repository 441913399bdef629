//! The interpreter: terms on symbolic objects.

ghost use Rattle.std.specs.Prelude.{◌≡◌, ℕ, Bool, true};
ghost use Rattle.gl_logic.specs.IsTermOf.{IsTermOf};
ghost use Rattle.gl_logic.specs.TermOf.{term_of};
ghost use Rattle.lisp_eval.specs.Machines.{Fits};
ghost use Rattle.sym_objects.specs.Seen.{IsWhole};
ghost use Rattle.gl_interp.specs.Causes.{Interprets, Rests};
ghost use Rattle.gl_interp.specs.Environments.{AreLive};

use super::env::SymEnv;
use super::envs::Envs;
use super::fault::GlFault;
use super::frame::Focus;
use super::results::{give, next};
use super::runs::{dropped, run};
use super::store_calls::path_of;
use super::visits::visit;
use bfr_store::{Bits, Edge};
use gl_logic::{Term, World};
use lisp_eval::Machine;
use std::alloc::Global;
use sym_objects::{Sob, Sobs, Stack};

/// The value of a term under every assignment of the path at once.
pub fn interp<B: Bits>(
    alloc: Global,
    objs: &mut Sobs<B>,
    machine: &mut Machine,
    world: &World,
    term: &Term,
    env: &SymEnv,
    clock: u32,
    path: Edge,
) -> Result<Sob, GlFault>
    requires whole { IsWhole B.Meaning objs.old }
    requires path { B.live objs.old.store path }
    requires reaches { (a : ℕ → Bool) × (B.truth_of objs.old.store path a ≡ true) }
    requires fits { Fits world.now machine.old }
    requires term { IsTermOf world.now.definitions (term_of term.now) }
    requires env { AreLive objs.old env.now }
    ensures interprets { Interprets B.Meaning objs.old objs.new (record { world = world.now; machine = machine.old; clock = clock; term = term_of term.now; env = env.now; path = path }) result }
    ensures rests { Rests machine.old machine.new }
{
    let _total = world.count();
    let mut envs = Envs::new(alloc);
    let first = envs.bind_pairs(env)?;
    let mut onward = path_of(alloc, objs, path)?;
    let mut frames = Stack::new(alloc);
    let mut focus = Focus::Visit(term, first, clock);
    loop {
        match focus {
            Focus::Visit(t, e, n) => {
                match visit(
                    alloc,
                    objs,
                    machine,
                    &envs,
                    path,
                    &onward,
                    t,
                    e,
                    n,
                    &mut frames,
                ) {
                    Ok(more) => focus = more,
                    Err(fault) => return Err(fault),
                }
            }
            Focus::Next(work, done, terms, e, n) => {
                focus = next(
                    objs,
                    &envs,
                    path,
                    &onward,
                    work,
                    done,
                    terms,
                    e,
                    n,
                    &mut frames,
                )?
            }
            Focus::Run(work, args, e, n) => {
                match dropped(alloc, objs, world, work, n, &mut onward) {
                    Ok(Some(more)) => focus = more,
                    Ok(None) => match run(
                        alloc, objs, machine, &mut envs, world, path, &onward, work, args, e, n,
                        &frames,
                    ) {
                        Ok(more) => focus = more,
                        Err(fault) => return Err(fault),
                    },
                    Err(fault) => return Err(fault),
                }
            }
            Focus::Give(object) => match frames.pop() {
                None => return Ok(object),
                Some(frame) => {
                    match give(
                        alloc,
                        objs,
                        machine,
                        &envs,
                        path,
                        &mut onward,
                        object,
                        frame,
                        &mut frames,
                    ) {
                        Ok(more) => focus = more,
                        Err(fault) => return Err(fault),
                    }
                }
            },
        }
    }
}
