// A lent state of which a check knows that it is long enough, that the settings and the number of
// nodes are in range, and that the ids are valid.
ghost use Rattle.state.specs.Loaded.{SettingsOf};
ghost use Rattle.state.specs.Checked.{Identified};

use state::settings::Settings;

#[derive(Clone, Copy)]
pub struct Checked<'a> {
    pub words: &'a [u64],
    pub settings: Settings,
    ghost identified: { Identified words.now },
    ghost settings_of: { SettingsOf words.now settings },
}
