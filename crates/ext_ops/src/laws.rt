//! Laws on hooks.
ghost use Rattle.std.specs.Prelude.{◌≡◌, ◌≤◌, Ok};
ghost use Rattle.doip_json.specs.Value.{Value, depth_of};
ghost use Rattle.ext_ops.specs.declared.code.HookCode.{HookCode};
ghost use Rattle.ext_ops.specs.Hook.{hook};

/// What a hook made of content, it leaves as it is, and it nests no deeper than that content. It does nothing when it
/// runs: a proof calls it for its clauses.
pub fn hooks_settle()
    ensures again { (code : HookCode) → (before after : Value) → hook code before ≡ Ok after → hook code after ≡ Ok after }
    ensures depth { (code : HookCode) → (before after : Value) → hook code before ≡ Ok after → depth_of after ≤ depth_of before }
{}
