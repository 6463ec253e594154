// The program that the expressions within a form stand in.

/// What evaluates expressions of one program, which contracts see; it has nothing to call.
pub trait Within {
    ghost use Rattle.expr_meaning.specs.Env.{Program};

    ghost program: { Self → Program };
}

/// What evaluates expressions of a program with these calls, in which key() finds what `keys` says,
/// which contracts see; it has nothing to call.
pub trait Calling {
    ghost use Rattle.expr_meaning.specs.Env.{Calls, Keys};

    ghost calls: { Self → Calls };

    ghost keys: { Self → Keys };
}
