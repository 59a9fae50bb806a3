// What holds of a server's turns.

ghost use Rattle.std.specs.Prelude.{◌≡◌, true, Err};
ghost use Rattle.expr_serve.specs.declared.fault.Refuse.TheVariants.{Scope};
ghost use Rattle.expr_serve.specs.declared.serving.Server.{Server};
ghost use Rattle.expr_serve.specs.Serving.{AreMentions, IsTurn};

/// A server that asks for what its text mentions, as each does from its start on, refuses for the scope only where a name was
/// answered to be none.
pub fn scope_is_answered()
    ensures { (s : Server) → AreMentions s.text s.mentions.items → IsTurn s (Err Scope) → s.is_unknown ≡ true }
{}
