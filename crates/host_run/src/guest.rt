ghost use Rattle.std.specs.Prelude.{◌≡◌, is_some};
ghost use Rattle.host_script.specs.Script.{forms_from};
ghost use Rattle.host_run.specs.Guest.{form_at};

use host_script::Form;

/// What a script says of a native: the forms of its first arguments, that of all others, and its
/// answer where it has one of its own.
#[derive(Clone, Copy, Debug)]
pub struct Guest<'s> {
    pub forms: &'s [Form],
    pub rest: Option<Form>,
    pub result: Option<i32>,
}

impl<'s> Guest<'s> {
    /// Whether it takes so many arguments.
    #[tactic(auto, using(crate::proofs::FormLaws::counts))]
    pub fn takes(&self, count: u32) -> bool
        ensures { result ≡ is_some (forms_from self.now.forms.now self.now.rest count) }
    {
        let (count, listed) = (count as usize, self.forms.len());
        if count < listed {
            false
        } else if count == listed {
            true
        } else {
            self.rest.is_some()
        }
    }

    /// The form of an argument by its number, where it takes so many.
    pub fn form(&self, index: u32) -> Form
        ensures { result ≡ form_at self.now.forms.now self.now.rest index }
    {
        match self.forms.get(index as usize) {
            Some(form) => *form,
            None => self.rest.unwrap_or(Form::Cell),
        }
    }
}
