//! The expansion of a list, with the calls that are open kept in a vector.

ghost use Rattle.std.specs.Prelude.{◌≡◌, ◌∷◌, [], ◌+◌, ◌-◌, ◌*◌, ◌<◌, ◌≤◌, ◌++◌, List, take, drop, true, false, IfOk, OnOk};
ghost use Rattle.ct_base.specs.Answers.{IfFault};
ghost use Rattle.ct_base.specs.declared.memory.Fail.TheVariants.{Fault};
ghost use Rattle.ct_macro_call.specs.declared.definition.Macro as declared_macro;
ghost use Rattle.ct_macro_call.specs.declared.marked.Marked.{Marked};
ghost use Rattle.ct_macro.specs.declared.expander.Expander as declared_state;
ghost use Rattle.ct_macro.specs.Expansion as spec;
ghost use Rattle.ct_macro.specs.Machine.{Comes, GoesOn, weight, weight_frame, weight_frames};

use crate::faults::{MacroFault, MacroKind};
use crate::keeping::{move_front, stay_behind};
use crate::reading::{Step, read_token};
use crate::table::Macros;
use ct_base::{Fail, Items, Mem, Out};
use ct_macro_call::{Call, Marked, Source};
use std::alloc::Global;
use std::mem;

/// A call whose arguments are being expanded: those that wait, those that are done but for the one that
/// is being expanded, the tokens before and behind the call in its list, and whether the list is that of
/// a condition.
#[derive(Drop)]
pub struct Frame {
    pub call: Call,
    pub waiting: Source<Items<Marked>>,
    pub fulls: Items<Items<Marked>>,
    pub done: Items<Marked>,
    pub rest: Source<Marked>,
    pub condition: bool,
}

/// How far an expansion has come: how many tokens were put, the calls whose arguments are being
/// expanded, the innermost first, and of the innermost list what is done, what is left, and whether it is
/// that of a condition.
#[derive(Drop)]
pub struct Expander {
    pub counted: u64,
    pub calls: Source<Frame>,
    pub done: Items<Marked>,
    pub rest: Source<Marked>,
    pub condition: bool,
}

/// The refusal of the replacement of a name.
fn refusal(kind: MacroKind, name: Marked) -> Fail<MacroFault>
    ensures { result ≡ Fault (spec.fault_at kind name) }
{
    let Marked { token, hidden: _ } = name;
    Fail::Fault(MacroFault {
        kind,
        line: token.span.line,
        name: token.text,
    })
}

impl Expander {
    /// The beginning of the expansion of a list.
    pub fn new(alloc: Global, tokens: Items<Marked>, condition: bool) -> Mem<Expander>
        ensures { IfOk result (λ state. (state.condition ≡ condition) × (state.counted ≡ 0) × (state.calls ≡ []) × (state.done ≡ [])
            × (state.rest ≡ tokens)) }
    {
        let mut rest = Source::new(alloc);
        rest.put_front(tokens)?;
        Ok(Expander {
            counted: 0,
            calls: Source::new(alloc),
            done: Items::new(alloc),
            rest,
            condition,
        })
    }

    /// Puts what a call puts before the tokens behind it, once its arguments are expanded.
    #[tactic(none)]
    fn put(&mut self, alloc: Global, room: u64, frame: Frame) -> Out<(), MacroFault>
        requires room { self.old.counted ≤ room }
        requires ready { frame.waiting ≡ [] }
        ensures ok { OnOk result ((macros : List declared_macro.Macro) (outer : spec.ExpansionOutcome (List Marked)) → Comes macros room self.new outer
            → GoesOn macros room frame self.old.counted self.old.calls outer) }
        ensures within { OnOk result ((self.new.counted ≤ room)
            × (weight room self.new < 2 * (room - self.old.counted) + weight_frame frame + weight_frames self.old.calls)) }
        ensures fault { IfFault result (λ fault. (macros : List declared_macro.Macro)
            → GoesOn macros room frame self.old.counted self.old.calls (spec.stopped fault)) }
    {
        let Frame {
            call,
            waiting: _,
            fulls,
            done,
            rest,
            condition,
        } = frame;
        let Some(put) = call.put(alloc, fulls.as_slice())? else {
            return Err(refusal(MacroKind::BadPaste, call.name));
        };
        if put.len() as u64 > room - self.counted {
            return Err(refusal(MacroKind::TooLong, call.name));
        }
        self.counted += put.len() as u64;
        self.done = done;
        self.rest = rest;
        self.condition = condition;
        self.rest.put_front(put)?;
        Ok(())
    }

    /// Goes on with a call: with its next argument, or with what it puts.
    #[tactic(none)]
    fn go_on(&mut self, alloc: Global, room: u64, frame: Frame) -> Out<(), MacroFault>
        requires { self.old.counted ≤ room }
        ensures ok { OnOk result ((macros : List declared_macro.Macro) (outer : spec.ExpansionOutcome (List Marked)) → Comes macros room self.new outer
            → GoesOn macros room frame self.old.counted self.old.calls outer) }
        ensures within { OnOk result ((self.new.counted ≤ room)
            × (weight room self.new < 2 * (room - self.old.counted) + weight_frame frame + weight_frames self.old.calls)) }
        ensures fault { IfFault result (λ fault. (macros : List declared_macro.Macro)
            → GoesOn macros room frame self.old.counted self.old.calls (spec.stopped fault)) }
    {
        let mut frame = frame;
        let Some(argument) = frame.waiting.next() else {
            return self.put(alloc, room, frame);
        };
        let mut rest = Source::new(alloc);
        rest.put_front(argument)?;
        self.done = Items::new(alloc);
        self.rest = rest;
        self.condition = false;
        self.calls.push(frame)?;
        Ok(())
    }

    /// Goes on where a list is done: with the call whose argument it is. The answer is whether there is
    /// one.
    #[tactic(none)]
    fn end_list(&mut self, alloc: Global, room: u64) -> Out<bool, MacroFault>
        requires room { self.old.counted ≤ room }
        requires ended { self.old.rest ≡ [] }
        ensures ends { IfOk result (λ more. more ≡ false → (macros : List declared_macro.Macro)
            → Comes macros room self.old (spec.done self.new.done self.new.counted)) }
        ensures goes { IfOk result (λ more. more ≡ true → (macros : List declared_macro.Macro) (outer : spec.ExpansionOutcome (List Marked))
            → Comes macros room self.new outer → Comes macros room self.old outer) }
        ensures within { IfOk result (λ more. more ≡ true → (self.new.counted ≤ room) × (weight room self.new < weight room self.old)) }
        ensures fault { IfFault result (λ fault. (macros : List declared_macro.Macro) → Comes macros room self.old (spec.stopped fault)) }
    {
        let Some(frame) = self.calls.next() else {
            return Ok(false);
        };
        let mut frame = frame;
        let full = mem::replace(&mut self.done, Items::new(alloc));
        frame.fulls.push(full)?;
        self.go_on(alloc, room, frame)?;
        Ok(true)
    }

    /// Keeps a token, and what it modifies where it is the `defined` of a condition.
    fn keep(&mut self, token: Marked) -> Mem<()>
        ensures { OnOk result ((self.new.condition ≡ self.old.condition) × (self.new.counted ≡ self.old.counted) × (self.new.calls ≡ self.old.calls)
            × (self.new.done ≡ self.old.done ++ token ∷ take (spec.stay_behind self.old.condition token self.old.rest) self.old.rest)
            × (self.new.rest ≡ drop (spec.stay_behind self.old.condition token self.old.rest) self.old.rest)) }
    {
        let count = stay_behind(self.condition, &token, &mut self.rest)?;
        self.done.push(token)?;
        move_front(&mut self.rest, &mut self.done, count)
    }

    /// Reads the next token of the innermost list.
    #[tactic(none)]
    fn read(
        &mut self,
        alloc: Global,
        macros: &Macros,
        room: u64,
        first: Marked,
    ) -> Out<(), MacroFault>
        requires { self.old.counted ≤ room }
        ensures goes { OnOk result ((before : declared_state.Expander) → before.condition ≡ self.old.condition → before.counted ≡ self.old.counted → before.calls ≡ self.old.calls
            → before.done ≡ self.old.done → before.rest ≡ first ∷ self.old.rest
            → (outer : spec.ExpansionOutcome (List Marked)) → Comes macros.now room self.new outer → Comes macros.now room before outer) }
        ensures within { OnOk result ((self.new.counted ≤ room) × (weight room self.new < weight room self.old + 1)) }
        ensures fault { IfFault result (λ fault. (before : declared_state.Expander) → before.condition ≡ self.old.condition → before.counted ≡ self.old.counted → before.calls ≡ self.old.calls
            → before.done ≡ self.old.done → before.rest ≡ first ∷ self.old.rest → Comes macros.now room before (spec.stopped fault)) }
    {
        match read_token(alloc, macros, first, &mut self.rest)? {
            Step::Kept(token) => {
                self.keep(token)?;
                Ok(())
            }
            Step::Refused(kind, name) => Err(refusal(kind, name)),
            Step::Replaced(call, arguments) => {
                let mut waiting = Source::new(alloc);
                waiting.put_front(arguments)?;
                let frame = Frame {
                    call,
                    waiting,
                    fulls: Items::new(alloc),
                    done: mem::replace(&mut self.done, Items::new(alloc)),
                    rest: mem::replace(&mut self.rest, Source::new(alloc)),
                    condition: self.condition,
                };
                self.go_on(alloc, room, frame)
            }
        }
    }

    /// Takes one step. The answer is whether more is to do.
    #[tactic(none)]
    fn step(&mut self, alloc: Global, macros: &Macros, room: u64) -> Out<bool, MacroFault>
        requires { self.old.counted ≤ room }
        ensures ends { IfOk result (λ more. more ≡ false → Comes macros.now room self.old (spec.done self.new.done self.new.counted)) }
        ensures goes { IfOk result (λ more. more ≡ true → (outer : spec.ExpansionOutcome (List Marked)) → Comes macros.now room self.new outer
            → Comes macros.now room self.old outer) }
        ensures within { IfOk result (λ more. more ≡ true → (self.new.counted ≤ room) × (weight room self.new < weight room self.old)) }
        ensures fault { IfFault result (λ fault. Comes macros.now room self.old (spec.stopped fault)) }
    {
        match self.rest.next() {
            Some(first) => {
                self.read(alloc, macros, room, first)?;
                Ok(true)
            }
            None => self.end_list(alloc, room),
        }
    }

    /// Takes steps to the end.
    pub fn run(&mut self, alloc: Global, macros: &Macros, room: u64) -> Out<(), MacroFault>
        requires { self.old.counted ≤ room }
        ensures ends { OnOk result (Comes macros.now room self.old (spec.done self.new.done self.new.counted)) }
        ensures fault { IfFault result (λ fault. Comes macros.now room self.old (spec.stopped fault)) }
    {
        while self.step(alloc, macros, room)? {}
        Ok(())
    }
}
