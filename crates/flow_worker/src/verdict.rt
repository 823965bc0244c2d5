//! The verdict on a packet.
ghost use Rattle.std.specs.Prelude.{◌≡◌, if◌then◌else◌};
ghost use Rattle.role_steps.specs.Roles.{IsShared, setup_of};
ghost use Rattle.run_rules.specs.Setup.{verdict_for};
ghost use Rattle.suri_base.specs.Capture.{HasFacts};
ghost use Rattle.suri_base.specs.declared.app.App.TheVariants as app;
ghost use Rattle.suri_base.specs.declared.facts.Facts.{Facts};

use app_detect::verdict;
use role_steps::Shared;
use suri_base::{App, Seen};

/// The verdict on a packet by what it bears; none on a packet that was refused.
pub(crate) fn verdict_on(shared: &Shared, no: u32, refused: bool) -> App
    requires shared { IsShared shared.now }
    requires packet { (f : Facts) × HasFacts shared.now.capture.now no f }
    ensures { result ≡ (if refused then app.None else verdict_for (setup_of shared.now) no) }
{
    if refused {
        return App::None;
    }
    match shared.capture.get(no) {
        Seen::Bears(facts) => verdict(&facts, shared.capture.payload(no)),
        Seen::Counted(_) => unreachable!(),
    }
}
