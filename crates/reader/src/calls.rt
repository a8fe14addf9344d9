// The calls that set a reader up and start its listing over.
ghost use Rattle.std.specs.Prelude.{◌≡◌, ℕ, List, [], ◌∷◌, map, ℤ, Some, None, IfOk, MatchResult};
ghost use Rattle.words.specs.Refusals.{refusal_of};
ghost use Rattle.cells.specs.Readings.{Weighed};
ghost use Rattle.runs.specs.Traces.{Trace, event, set_call, radius_call, load_call, rewind_call, shape_of, weights_of};
ghost use Rattle.runs.specs.Answers.{done_or};
ghost use Rattle.runs.specs.Rows.{wide_row, unset_row, set_row, radius_row, load_row, rewind_row};
ghost use Rattle.runs.specs.CallLaws.{SetLaw, RadiusLaw, LoadLaw, RewindLaw};
ghost use Rattle.runs.specs.States.{LedTo, set_to, with_radius, with_weights, rewound};
ghost use Rattle.runs.specs.States.{new as new_state};
ghost use Rattle.reader.specs.Views.{view};

use crate::state::{Reader, Setting};
use cells::{Cell, weigh};
use words::{Code, Refusal};

// The widest radius: no word costs more.
const WIDEST: u32 = 32_512;

// Refuses a radius above the widest.
fn check_radius(radius: u32) -> Result<(), Refusal>
    ensures { refusal_of result ≡ wide_row radius None }
{
    if radius > WIDEST {
        return Err(Refusal::Radius);
    }
    Ok(())
}

// Empties an option, and writes nothing where it is empty.
fn clear<T: Drop>(option: &mut Option<T>)
    ensures { option.new ≡ None }
{
    if option.is_some() {
        write_none(option);
    }
}

// Writes a `None`, which fills the whole room of the option. Kept out of line, so that a call that has none to write saves no registers for it.
#[cold]
#[inline(never)]
fn write_none<T: Drop>(option: &mut Option<T>)
    ensures { option.new ≡ None }
{
    *option = None;
}

impl Reader {
    // A reader that is not set.
    pub fn new() -> Reader
        ensures state { view result ≡ new_state }
        ensures history { LedTo [] (view result) }
    {
        Reader { setting: None }
    }

    // What the reader has been set to, and what has come since.
    pub(crate) fn setting(&self) -> Result<Setting, Refusal>
        ensures refused { refusal_of result ≡ unset_row (view self.now).shape (λ _. None) }
        ensures setting { IfOk result (λ setting. self.now.setting ≡ Some setting) }
    {
        self.setting.ok_or(Refusal::Unset)
    }

    // Sets the number of variables, the order and the radius, whatever they are: a narrower type would ask more of callers. The reader is then without
    // cells, and nothing is handed out.
    pub fn set(&mut self, m: u32, r: u32, radius: u32) -> Result<(), Refusal>
        ensures refused { refusal_of result ≡ set_row m r radius }
        ensures state { MatchResult result (λ _. view self.new ≡ set_to m r radius) (λ _. self.new ≡ self.old) }
        ensures history { (h : Trace) → LedTo h (view self.old) → SetLaw m r radius (done_or result) × LedTo (event (set_call m r radius) (done_or result) [] ∷ h) (view self.new) }
    {
        let code = Code::new(m, r)?;
        check_radius(radius)?;
        // In place where there is a setting: one that is assigned is written over whole.
        match &mut self.setting {
            Some(kept) => {
                kept.code = code;
                kept.radius = radius;
                clear(&mut kept.weights);
                clear(&mut kept.last);
            }
            None => {
                self.setting = Some(Setting {
                    code,
                    radius,
                    weights: None,
                    last: None,
                });
            }
        }
        Ok(())
    }

    // Changes the radius, and starts the listing over.
    pub fn radius(&mut self, radius: u32) -> Result<(), Refusal>
        ensures refused { refusal_of result ≡ radius_row (view self.old).shape radius }
        ensures state { MatchResult result (λ _. view self.new ≡ with_radius radius (view self.old)) (λ _. self.new ≡ self.old) }
        ensures history { (h : Trace) → LedTo h (view self.old) → RadiusLaw (shape_of h) radius (done_or result) × LedTo (event (radius_call radius) (done_or result) [] ∷ h) (view self.new) }
    {
        check_radius(radius)?;
        let setting = self.setting.as_mut().ok_or(Refusal::Unset)?;
        setting.radius = radius;
        clear(&mut setting.last);
        Ok(())
    }

    // Starts the listing over.
    pub fn rewind(&mut self) -> Result<(), Refusal>
        ensures refused { refusal_of result ≡ rewind_row (view self.old).shape (view self.old).weights }
        ensures state { MatchResult result (λ _. view self.new ≡ rewound (view self.old)) (λ _. self.new ≡ self.old) }
        ensures history { (h : Trace) → LedTo h (view self.old) → RewindLaw (shape_of h) (weights_of h) (done_or result) × LedTo (event rewind_call (done_or result) [] ∷ h) (view self.new) }
    {
        let setting = self.setting.as_mut().ok_or(Refusal::Unset)?;
        if setting.weights.is_none() {
            return Err(Refusal::NoCells);
        }
        clear(&mut setting.last);
        Ok(())
    }

    // Keeps the weights of cells of any kind, one for each point, and starts the listing over.
    pub fn load<C: Cell>(&mut self, cells: &[C]) -> Result<(), Refusal>
        ensures refused { refusal_of result ≡ load_row (view self.old).shape (map C.Cell.reading cells.now) }
        ensures state { MatchResult result (λ _. (weights : List ℤ) × Weighed (map C.Cell.reading cells.now) weights × (view self.new ≡ with_weights weights (view self.old))) (λ _. self.new ≡ self.old) }
        ensures history { (h : Trace) → LedTo h (view self.old) → LoadLaw (shape_of h) (map C.Cell.reading cells.now) (done_or result) × LedTo (event (load_call (map C.Cell.reading cells.now)) (done_or result) [] ∷ h) (view self.new) }
    {
        let setting = self.setting()?;
        if cells.len() != setting.code.points() {
            return Err(Refusal::Length);
        }
        // No heap: as many as a mark can have.
        let mut weights = [0; 256];
        weigh(cells, &mut weights)?;
        self.setting = Some(Setting {
            weights: Some(weights),
            ..setting.rewound()
        });
        Ok(())
    }
}
