// A node's table, with the node that owns it.
ghost use Rattle.std.specs.Prelude.{◌≡◌, length};

use soundness_ids::member::Member;

#[derive(Clone, Copy)]
pub struct MemberTable<'a> {
    pub owner: Member<'a>,
    pub bytes: &'a [u8],
    ghost whole: { length bytes.now ≡ 512 },
}
