//! Commands are executed, and lines answered.

ghost use Rattle.std.specs.Prelude.{◌≡◌, true};
ghost use Rattle.sheet.specs.Keywords.{belongs_in};
ghost use Rattle.sheet.specs.Readers.{seen_line};
ghost use Rattle.sheet.specs.Readings.{keyword_of};
ghost use Rattle.sheet.specs.Runs.{Answers, Executed, first_state, state_of};
ghost use Rattle.sheet.specs.declared.keyword.Stage.TheVariants.{Closed};

use crate::command::Command;
use crate::keyword::Stage;
use crate::line::Line;
use crate::reading::read;
use crate::refusal::Refusal;
use crate::reply::Reply;
use crate::state::SheetState;
use network::Draft;
use std::mem;

impl SheetState {
    // The state that every sheet begins with.
    pub(crate) fn new() -> SheetState
        ensures { state_of result ≡ first_state }
    {
        SheetState::Wiring(Draft::new())
    }

    // How far the sheet has come.
    fn stage(&self) -> Stage
        ensures { result ≡ (state_of self.now).stage }
    {
        match self {
            SheetState::Wiring(_) => Stage::Wiring,
            SheetState::Closed(_) => Stage::Closed,
        }
    }

    // Closes the network, if it is not yet.
    fn close(&mut self)
        ensures { state_of self.new ≡ record { stage = Closed; net = (state_of self.old).net } }
    {
        let state = mem::replace(self, SheetState::new());
        *self = SheetState::Closed(state.into_network());
    }

    // Executes a command that belongs at the stage of the sheet.
    fn execute(&mut self, command: Command) -> Result<(), Refusal>
        requires { belongs_in (keyword_of command) (state_of self.old).stage ≡ true }
        ensures { Executed (state_of self.old) command result (state_of self.new) }
    {
        match self {
            SheetState::Wiring(draft) => match command {
                Command::Net(numbers) => draft.set_numbers(numbers)?,
                Command::Link(from, to) => {
                    draft.add_link(from, to)?;
                }
                Command::Ready => self.close(),
                Command::Planner(_) => return Err(Refusal::NoPlanner),
            },
            SheetState::Closed(_) => return Err(Refusal::NoPlanner),
        }
        Ok(())
    }

    // Answers a line.
    pub(crate) fn respond(&mut self, line: Line) -> Reply
        ensures { Answers (state_of self.old) (seen_line line.entry) result (state_of self.new) }
    {
        let (refusal, place) = match read(line, self.stage()) {
            Ok(command) => match self.execute(command) {
                Ok(()) => return Reply::Done,
                Err(refusal) => (refusal, line.text.place),
            },
            Err(fault) => (fault.refusal.into(), fault.place),
        };
        Reply::Refused {
            refusal,
            line: line.number,
            place,
        }
    }
}
