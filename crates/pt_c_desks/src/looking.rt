//! What is read, written out as the structs that cross, for more than one call each.

ghost use Rattle.std.specs.Prelude.{slice_get};
ghost use Rattle.pt_c_values.specs.Places.{ShowsCode};
ghost use Rattle.pt_c_values.specs.Crossing.{pid_out, ref_out, ids_out, event_out};

use pt_c_values::codes::{DONE, NOTHING};
use pt_c_values::crossing::{event_out, ids_out, pid_out, ref_out};
use pt_c_values::types::{PtEvent, PtIds, PtPid, PtRef};
use pt_events::Stamped;
use pt_signal::{Ids, Pid, Ref};

/// Writes the pid, if there is one.
pub fn show_pid(pid: Option<Pid>, out: &mut PtPid) -> u32
    ensures { ShowsCode result out.old out.new pid_out pid }
{
    match pid {
        Some(pid) => {
            *out = pid_out(pid);
            DONE
        }
        None => NOTHING,
    }
}

/// Writes the ids of a link, if there is one.
pub fn show_ids(ids: Option<Ids>, out: &mut PtIds) -> u32
    ensures { ShowsCode result out.old out.new ids_out ids }
{
    match ids {
        Some(ids) => {
            *out = ids_out(ids);
            DONE
        }
        None => NOTHING,
    }
}

/// Writes the event at a place, if there is one.
pub fn show_event(events: &[Stamped], place: usize, out: &mut PtEvent) -> u32
    ensures { ShowsCode result out.old out.new event_out (slice_get events.now place) }
{
    match events.get(place) {
        Some(event) => {
            *out = event_out(*event);
            DONE
        }
        None => NOTHING,
    }
}

/// Writes a monitor, and the process at its other end, if there is one.
pub fn show_monitor(found: Option<(Ref, Pid)>, monitor: &mut PtRef, pid: &mut PtPid) -> u32
    ensures monitor { ShowsCode result monitor.old monitor.new (λ m. ref_out m.0) found }
    ensures pid { ShowsCode result pid.old pid.new (λ m. pid_out m.1) found }
{
    match found {
        Some((reference, other)) => {
            *monitor = ref_out(reference);
            *pid = pid_out(other);
            DONE
        }
        None => NOTHING,
    }
}
