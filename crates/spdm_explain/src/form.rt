ghost use Rattle.std.specs.Prelude.{◌≡◌};

/// The forms of texts.
#[derive(Clone, Copy, Debug, PartialEq, Eq)]
pub enum Form {
    Script,
    Capture,
    Config,
    Lives,
    Policy,
}

impl Form {
    ghost use Rattle.std.specs.Prelude.{◌≡◌};
    ghost use Rattle.spdm_explain.specs.Report.{form_in};

    /// The form of a text by its word.
    #[tactic(auto, unfolding(crate::specs::Report::form_in))]
    pub fn named(word: &str) -> Option<Form>
        ensures { result ≡ form_in word.now }
    {
        if word == "script" {
            Some(Form::Script)
        } else if word == "capture" {
            Some(Form::Capture)
        } else if word == "config" {
            Some(Form::Config)
        } else if word == "lives" {
            Some(Form::Lives)
        } else if word == "policy" {
            Some(Form::Policy)
        } else {
            None
        }
    }
}
