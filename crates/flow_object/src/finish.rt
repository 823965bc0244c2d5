//! The record of a flow that ended.
ghost use Rattle.std.specs.Prelude.{◌≡◌, ℕ, List, length};
ghost use Rattle.flow_object.specs.Line.{line_of};
ghost use Rattle.flow_object.specs.Object.{nodes_in, stops_in};
ghost use Rattle.flow_object.specs.Standing.{StandsFor};
ghost use Rattle.flow_sum.specs.Run.{Run};
ghost use Rattle.suri_base.specs.declared.app.App.{App};

use crate::outcome::{Ended, Finished, FlowLine};

/// Makes the record of a flow that ended. The object comes back without nodes, with the setting that it had, and all its
/// nodes are handed out.
pub fn finish_flow(ended: Ended) -> Finished
    // It is the record of the run's packets, of the stops of its streams, and of the verdicts on them.
    ensures of_run { (bytes : List ℕ) (r : Run) (judged : List App) → StandsFor ended.obj bytes r judged
        → result.line ≡ line_of ended.obj.depth (stops_in ended.obj) bytes r judged ended.reason ended.emergency }
    ensures settings { result.obj.depth ≡ ended.obj.depth }
    ensures no_nodes { nodes_in result.obj ≡ 0 }
    ensures freed { length result.freed ≡ nodes_in ended.obj }
{
    let Ended {
        run: _,
        reason,
        emergency,
        mut obj,
    } = ended;
    let freed = obj.all();
    let sums = *obj.sums();
    let class = obj.class();
    let state = obj.state();
    let app = obj.app();
    let (ts, tc) = obj.end();
    let line = FlowLine {
        sums,
        class,
        state,
        app,
        ts,
        tc,
        reason,
        emergency,
    };
    Finished { line, obj, freed }
}
