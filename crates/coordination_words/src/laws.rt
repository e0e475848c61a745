//! Laws of requests. The functions do nothing: their contracts are the laws.

ghost use Rattle.std.specs.Prelude.{◌≡◌, ◌≢◌, ◌≤◌, ℕ, ℤ, Bool, true, List, [], Ok, Err};
ghost use Rattle.axis_sets.specs.Sets.{IsEmpty};
ghost use Rattle.axis_sets.specs.declared.limits.TheConstants.{MARK_LIMIT};
ghost use Rattle.nc_blocks.specs.Statement.{OperandView};
ghost use Rattle.nc_blocks.specs.declared.blocks.CoordWord.{CoordWord};
ghost use Rattle.nc_blocks.specs.declared.blocks.CoordWord.TheVariants as coord;
ghost use Rattle.nc_expressions.specs.Values.{Values};
ghost use Rattle.fault_codes.specs.Codes.{IsAlarmCode};
ghost use Rattle.sync_types.specs.declared.Action.{Action};
ghost use Rattle.sync_types.specs.declared.Action.TheVariants.{ClearM};
ghost use Rattle.coordination_words.specs.Laws.{IsOfTheJob};
ghost use Rattle.coordination_words.specs.Requests as model;
ghost use Rattle.coordination_words.specs.Settings.{SettingView};
ghost use Rattle.coordination_words.specs.declared.asked.Request.TheVariants.{Act, Switch};

/// A law: what a block asks of the other channels names marks that there are, channels, axes and a program of the job, and
/// all axes of a zone or none. It waits for no own mark and lets go of own axes alone, and it is no alarm and no program
/// end. CPROT asks nothing of them.
pub fn requests_are_of_the_job()
    ensures { (setting : SettingView) (values : Values) (word : CoordWord)
        (operands : List OperandView) (action : Action)
        → model.request_of setting values word operands ≡ Ok (Act action)
        → IsOfTheJob setting action × (word ≢ coord.CProt) }
{}

/// A law: a zone that is switched is one that the channel holds, and CPROT alone switches.
pub fn switches_are_of_held_zones()
    ensures { (setting : SettingView) (values : Values) (word : CoordWord)
        (operands : List OperandView) (zone : ℕ) (on : Bool)
        → model.request_of setting values word operands ≡ Ok (Switch zone on)
        → (setting.holds zone ≡ true) × (word ≡ coord.CProt) }
{}

/// A law: CLEARM asks for the set with no mark, which stands for all, only where it has no argument, in any job whose marks
/// a set can hold.
pub fn clearm_without_arguments_lowers_all()
    ensures { (setting : SettingView) (values : Values) (operands : List OperandView) (marks : List Bool)
        → setting.marks ≤ MARK_LIMIT
        → model.request_of setting values coord.ClearM operands ≡ Ok (Act (ClearM marks))
        → IsEmpty marks
        → operands ≡ [] }
{}

/// A law: the alarm of a coordination block is in the table of alarms.
pub fn alarms_are_listed()
    ensures { (setting : SettingView) (values : Values) (word : CoordWord) (operands : List OperandView) (code : ℕ)
        → model.request_of setting values word operands ≡ Err code
        → IsAlarmCode code }
{}
