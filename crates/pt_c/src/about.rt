//! What the library reports of itself, so that a header or a wrapper can be compared with it.

ghost use Rattle.std.specs.Prelude.{◌≡◌};
ghost use Rattle.pt_c_tools.specs.About.{all_codes, all_sizes, sample_fired, sample_holder};
ghost use Rattle.pt_c_values.specs.Samples.{sample_event, sample_left_over, sample_turned, sample_account, sample_loss};
ghost use Rattle.pt_c_values.specs.Samples.{sample_config, sample_job, sample_answer};

use pt_c_crews::about_crews;
use pt_c_tools::about::{self, PtCodes, PtSizes};
use pt_c_tools::naming::PtHolder;
use pt_c_tools::types::PtFired;
use pt_c_values::samples;
use pt_c_values::types::{
    PtAccount, PtAnswer, PtConfig, PtEvent, PtJob, PtLeftOver, PtLoss, PtTurned,
};

/// Writes each code, from the same functions as the calls.
#[unsafe(no_mangle)]
pub extern "C" fn pt_about_codes(out: &mut PtCodes)
    ensures { out.new ≡ all_codes }
{
    about_crews::codes(out);
}

/// Writes the size of each struct that crosses.
#[unsafe(no_mangle)]
pub extern "C" fn pt_about_sizes(out: &mut PtSizes)
    ensures { out.new ≡ all_sizes }
{
    about::sizes(out);
}

/// Writes a sample of an event: its fields have the numbers 1, 2, 3 and so on in order, a bool being true.
#[unsafe(no_mangle)]
pub extern "C" fn pt_about_event(out: &mut PtEvent)
    ensures { out.new ≡ sample_event }
{
    samples::event(out);
}

/// Writes a sample of a letter left over: its fields have the numbers 1, 2, 3 and so on in order, and each bool is
/// true.
#[unsafe(no_mangle)]
pub extern "C" fn pt_about_left_over(out: &mut PtLeftOver)
    ensures { out.new ≡ sample_left_over }
{
    samples::left_over(out);
}

/// Writes a sample of a turn: its fields have the numbers 1, 2, 3 and so on in order, a bool being true.
#[unsafe(no_mangle)]
pub extern "C" fn pt_about_turned(out: &mut PtTurned)
    ensures { out.new ≡ sample_turned }
{
    samples::turned(out);
}

/// Writes a sample of an account: its fields have the numbers 1, 2, 3 and so on in order, a bool being true.
#[unsafe(no_mangle)]
pub extern "C" fn pt_about_account(out: &mut PtAccount)
    ensures { out.new ≡ sample_account }
{
    samples::account(out);
}

/// Writes a sample of a loss: its fields have the numbers 1, 2, 3 and so on in order, a bool being true.
#[unsafe(no_mangle)]
pub extern "C" fn pt_about_loss(out: &mut PtLoss)
    ensures { out.new ≡ sample_loss }
{
    samples::loss(out);
}

/// Writes a sample of a timer that is due: its fields have the numbers 1, 2, 3 in order.
#[unsafe(no_mangle)]
pub extern "C" fn pt_about_fired(out: &mut PtFired)
    ensures { out.new ≡ sample_fired }
{
    about::fired(out);
}

/// Writes a sample of who has a name: its fields have the numbers 1, 2, 3 and so on in order.
#[unsafe(no_mangle)]
pub extern "C" fn pt_about_holder(out: &mut PtHolder)
    ensures { out.new ≡ sample_holder }
{
    about::holder(out);
}

/// Writes a sample of settings: its fields have the numbers 1, 2, 3 and so on in order, and each bool is true.
#[unsafe(no_mangle)]
pub extern "C" fn pt_about_config(out: &mut PtConfig)
    ensures { out.new ≡ sample_config }
{
    samples::config(out);
}

/// Writes a sample of a job: its fields have the numbers 1, 2, 3 and so on in order, a bool being true.
#[unsafe(no_mangle)]
pub extern "C" fn pt_about_job(out: &mut PtJob)
    ensures { out.new ≡ sample_job }
{
    samples::job(out);
}

/// Writes a sample of an answer: its fields have the numbers 1, 2, 3 and so on in order.
#[unsafe(no_mangle)]
pub extern "C" fn pt_about_answer(out: &mut PtAnswer)
    ensures { out.new ≡ sample_answer }
{
    samples::answer(out);
}
