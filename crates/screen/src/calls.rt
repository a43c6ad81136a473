ghost use Rattle.std.specs.Prelude.{◌≡◌, ◌<◌, [], ◌∷◌, ◌++◌};
ghost use Rattle.reversible.specs.Ledger.{open_screen, screen_call, load as loading, apply as applying, back as going_back, look as looking, entry};
ghost use Rattle.rules.specs.Ledger.{screen_rules};
ghost use Rattle.script.specs.Verdicts.{script_from};
ghost use Rattle.arrayvec.specs.ArrayVec.{array_vec_len};
ghost use Rattle.screen.specs.Model.{model, standing_of, answered, three, two, Full};

use crate::parts::{Screen, Standing};
use arrayvec::ArrayVec;
use rules::{Line, Refusal, Term};
use runs::{Stopped, numbers, run};
use script::program::Program;
use store::Store;
use work::start;

// Load, apply and back answer three plain numbers, and look two, so that any caller can pass them on; 0 is no refusal.
impl<S: Store> Screen<S> {
    // Takes a store: no lines, and nothing standing.
    pub fn open(store: S) -> Screen<S>
        ensures screen { model S.book result ≡ open_screen screen_rules (S.book store) }
        ensures store { result.store ≡ store }
    {
        Screen {
            store,
            program: Program::empty(),
            standing: ArrayVec::new(),
        }
    }

    // Replaces the script, unless something stands or the check refuses it.
    pub fn load(&mut self, lines: &[Line], terms: &[Term]) -> (u32, u32, u32)
        ensures answer { result ≡ three (screen_call screen_rules (model S.book self.old) (loading (script_from lines.now terms.now))).0 }
        ensures screen { model S.book self.new ≡ (screen_call screen_rules (model S.book self.old) (loading (script_from lines.now terms.now))).1 }
    {
        if !self.standing.is_empty() {
            return (u32::from(Refusal::SomethingStands), 0, 0);
        }
        match Program::build(lines, terms) {
            Ok(program) => {
                self.program = program;
                (0, 0, 0)
            }
            Err(fault) => (u32::from(fault.refusal), u32::from(fault.line), 0),
        }
    }

    // Why a full screen refuses method q: there is no book, no such method, or no room.
    fn why_full(&self, q: u32) -> Refusal
        ensures { Full result (model S.book self.now) q }
    {
        if self.store.size() == 0 {
            return Refusal::NoBook;
        }
        match start(&self.program, q, true) {
            None => Refusal::NoSuchMethod,
            Some(_) => Refusal::ListFull,
        }
    }

    // Adds a method that finished at the end of the standing list.
    fn join(&mut self, method: u32, steps: u32)
        requires { array_vec_len self.old.standing < 64 }
        ensures store { self.new.store ≡ self.old.store }
        ensures program { self.new.program ≡ self.old.program }
        ensures list { standing_of self.new ≡ standing_of self.old ++ (entry method steps ∷ []) }
    {
        self.standing.push(Standing { method, steps });
    }

    fn put_on(&mut self, q: u32, budget: u32) -> Result<u32, Stopped>
        ensures answer { answered result ≡ (screen_call screen_rules (model S.book self.old) (applying q budget)).0 }
        ensures screen { model S.book self.new ≡ (screen_call screen_rules (model S.book self.old) (applying q budget)).1 }
    {
        if self.standing.is_full() {
            return Err(Stopped::from(self.why_full(q)));
        }
        let steps = run(&mut self.store, &self.program, q, true, budget)?;
        self.join(q, steps);
        Ok(steps)
    }

    // Runs method q forward; a finished one joins the standing list.
    pub fn apply(&mut self, q: u32, budget: u32) -> (u32, u32, u32)
        ensures answer { result ≡ three (screen_call screen_rules (model S.book self.old) (applying q budget)).0 }
        ensures screen { model S.book self.new ≡ (screen_call screen_rules (model S.book self.old) (applying q budget)).1 }
    {
        numbers(self.put_on(q, budget))
    }

    fn take_off(&mut self) -> Result<u32, Stopped>
        ensures answer { answered result ≡ (screen_call screen_rules (model S.book self.old) going_back).0 }
        ensures screen { model S.book self.new ≡ (screen_call screen_rules (model S.book self.old) going_back).1 }
    {
        let last = self.standing.last().copied().ok_or(Refusal::NothingStands)?;
        let steps = run(
            &mut self.store,
            &self.program,
            last.method,
            false,
            last.steps,
        )?;
        let _ = self.standing.pop();
        Ok(steps)
    }

    // Runs the last standing method backward and strikes it from the list.
    pub fn back(&mut self) -> (u32, u32, u32)
        ensures answer { result ≡ three (screen_call screen_rules (model S.book self.old) going_back).0 }
        ensures screen { model S.book self.new ≡ (screen_call screen_rules (model S.book self.old) going_back).1 }
    {
        numbers(self.take_off())
    }

    // Word w of the book as it stands.
    pub fn look(&self, w: u32) -> (u32, i32)
        ensures { result ≡ two (screen_call screen_rules (model S.book self.now) (looking w)).0 }
    {
        match self.store.read(w) {
            Ok(word) => (0, word),
            Err(refusal) => (u32::from(refusal), 0),
        }
    }

    // Hands the store over as it lies.
    pub fn close(self) -> S
        ensures { result ≡ self.store }
    {
        let Screen { store, .. } = self;
        store
    }
}
