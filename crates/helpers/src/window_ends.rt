// A window end that goes from one layer to the next. It lies in 1 to 65,535, so what takes one has nothing to refuse.
ghost use Rattle.std.specs.Prelude.{◌≡◌, ◌≤◌};
ghost use Rattle.meaning.specs.Answers.{reply_as};
ghost use Rattle.helpers.specs.WindowEnds.{window_end_of};

use meaning::limits::MOST;
use meaning::refusals::Refusal;

#[derive(Clone, Copy)]
pub struct WindowEnd {
    pub(crate) count: u16,
    ghost some: { 1 ≤ count },
}

impl WindowEnd {
    pub fn count(self) -> u16
        ensures { result ≡ self.count }
    {
        self.count
    }
}

// A window end; 2 above 65,535 and 5 for 0 instead.
pub fn window_end(count: usize) -> Result<WindowEnd, Refusal>
    ensures { reply_as (λ end. end.count) result ≡ window_end_of count }
{
    if count > MOST {
        return Err(Refusal::TooLarge);
    }
    if count == 0 {
        return Err(Refusal::NoWindow);
    }
    Ok(WindowEnd {
        count: count as u16,
    })
}
