// A law of the variables that a load shows. Its body is empty.
ghost use Rattle.std.specs.Prelude.{ℕ, ◌+◌};
ghost use Rattle.rm_settings.specs.declared.settings.Settings.{Settings};
ghost use Rattle.rm_agent.specs.Groups.{cells};
ghost use Rattle.rm_load.specs.declared.figure.Figure.{Figure};
ghost use Rattle.rm_load.specs.Acts.{acts_of};
ghost use Rattle.rm_load.specs.Names.{variable_of};
ghost use Rattle.rm_load.specs.Text.{IsNumber};

/// A law: each variable that a load shows has a number when it is shown, whatever the probe is set to.
pub fn figures_are_numbers()
    ensures { (settings : Settings) (start count : ℕ) (figure : Figure)
        → IsNumber (cells settings (acts_of start count) (1001 + count) (variable_of figure)) }
{}
