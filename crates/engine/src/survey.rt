// The hop survey.
ghost use Rattle.std.specs.Prelude.{◌≡◌};
ghost use Rattle.model.specs.Calls.{survey_call};
ghost use Rattle.state.specs.Lent.{memory};
ghost use Rattle.answers.specs.Fields.{survey_fields};
ghost use Rattle.engine.specs.Outcomes.{leaves};

use answers::error::Refusal;

// Counts the ordered pairs of different nodes that have not failed by the hops of their lookups: how many arrive in h hops, at place h − 1 for h from
// 1 to 8, and how many are lost, at place 8. Refusals: 1, 2.
pub fn survey(state: &[u64], tables: &[u8], failed: u64) -> Result<[u64; 9], Refusal>
    ensures { leaves (memory state.now tables.now) (survey_fields result) ≡ survey_call (memory state.now tables.now) failed }
{
    let network = refusals::sentences::judged(state, tables)?;
    Ok(hop_survey::survey(&network, failed))
}
