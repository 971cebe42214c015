// The three forms of a kind over a group with bases g and h.
ghost use Rattle.std.specs.Prelude.{◌≡◌};
ghost use Rattle.kinds.specs.declared.form.Form.TheVariants as forms;

#[derive(Clone, Copy, PartialEq, Eq)]
pub enum Form {
    // width 1: the image of (w, 0) is g^w
    Single,
    // width 1: the image of (w, 0) is g^w, h^w
    Twin,
    // width 2: the image of (u, v) is g^u h^v
    Mixed,
}

// A form as a type, so that the type of a set says which form its kind has.
pub trait Shape: Copy {
    ghost use Rattle.kinds.specs.declared.form.Form.{Form};

    ghost form: { Form };

    fn form() -> Form
        ensures { result ≡ form };
}

#[derive(Clone, Copy)]
pub struct Single;

#[derive(Clone, Copy)]
pub struct Twin;

#[derive(Clone, Copy)]
pub struct Mixed;

impl Shape for Single {
    ghost form = { forms.Single };

    fn form() -> Form {
        Form::Single
    }
}

impl Shape for Twin {
    ghost form = { forms.Twin };

    fn form() -> Form {
        Form::Twin
    }
}

impl Shape for Mixed {
    ghost form = { forms.Mixed };

    fn form() -> Form {
        Form::Mixed
    }
}
