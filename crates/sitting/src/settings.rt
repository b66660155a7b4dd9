// The settings of a sitting.
ghost use Rattle.std.specs.Prelude.{◌≡◌, ◌*◌, ◌≤◌};
ghost use Rattle.flow.specs.Limits.{most_unit};
ghost use Rattle.sitting.specs.Courses.{levelled};

use flow::limits::ERROR_UNITS;

// What stands until another command changes it: the level of lists.
#[derive(Debug, Clone, Copy, PartialEq, Eq)]
pub struct Settings {
    pub level: u64,
}

impl Settings {
    // The settings under a new plan with this unit.
    pub(crate) fn of(unit: u64) -> Settings
        requires { unit ≤ most_unit }
        ensures { result ≡ levelled (4 * unit) }
    {
        Settings {
            level: ERROR_UNITS * unit,
        }
    }
}

// Holds a level of its own in the settings. When it ends, the level that stood before is put back.
pub(crate) struct TrialLevel<'a> {
    settings: &'a mut Settings,
    kept: u64,
}

impl<'a> TrialLevel<'a> {
    // Puts the level into the settings.
    pub(crate) fn new(settings: &'a mut Settings, level: u64) -> TrialLevel<'a>
        ensures level { result.settings.now ≡ levelled level }
        ensures kept { result.kept ≡ settings.old.level }
        ensures same_settings { result.settings.ghost_name ≡ settings.entry.ghost_name }
    {
        let kept = settings.level;
        settings.level = level;
        TrialLevel { settings, kept }
    }

    // The level that stands now.
    pub(crate) fn level(&self) -> u64
        ensures { result ≡ self.now.settings.now.level }
    {
        self.settings.level
    }
}

impl Drop for TrialLevel<'_> {
    fn drop(self)
        ensures { self.exit.0.now ≡ levelled self.entry.kept }
    {
        let TrialLevel { settings, kept } = self;
        settings.level = kept;
    }
}
