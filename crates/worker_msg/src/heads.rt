// The bytes of frames that are the same in each frame of their kind.
ghost use Rattle.std.specs.Prelude.{◌≡◌, ◌≤◌, ◌+◌, ◌++◌, ◌∷◌, [], if◌then◌else◌};
ghost use Rattle.foz_words.specs.Bytes.{le32};
ghost use Rattle.worker_msg.specs.Frames.{framed, key_bytes, limit, spelling, work_head};
ghost use Rattle.worker_msg.specs.declared.msg.Msg.TheVariants.{Hello, Reply, Quit};

use foz_words::{Key, le32_bytes, le64_bytes};

/// The bytes of a Hello.
pub(crate) const HELLO: [u8; 9] = [5, 0, 0, 0, 1, 0x46, 0x4F, 0x5A, 1];

/// How a Reply begins; its code and key follow.
pub(crate) const REPLY_HEAD: [u8; 5] = [17, 0, 0, 0, 4];

/// The frame of a Hello. It takes no memory.
#[tactic(auto, unfolding(foz_words::specs::Bytes::le32, crate::specs::Frames::spelling, crate::specs::Frames::framed))]
pub fn hello_frame() -> [u8; 9]
    ensures { result ≡ spelling Hello }
{
    HELLO
}

/// The frame of a Quit. It takes no memory.
#[tactic(auto, unfolding(foz_words::specs::Bytes::le32, crate::specs::Frames::spelling, crate::specs::Frames::framed))]
pub fn quit_frame() -> [u8; 5]
    ensures { result ≡ spelling Quit }
{
    [1, 0, 0, 0, 5]
}

/// What stands before the payload of a Load or a Do.
#[tactic(auto, unfolding(foz_words::specs::Bytes::le32, foz_words::specs::Bytes::le64, crate::specs::Frames::work_head))]
pub(crate) fn work_bytes(load: bool, key: &Key, payload_len: u32) -> [u8; 17]
    requires { payload_len ≤ limit }
    ensures { result ≡ work_head load key.now payload_len }
{
    let body = le32_bytes(13 + payload_len);
    let kind = if load { 2 } else { 3 };
    let tag = le32_bytes(key.tag);
    let hash = le64_bytes(key.hash);
    [
        body[0], body[1], body[2], body[3], kind, tag[0], tag[1], tag[2], tag[3], hash[0], hash[1],
        hash[2], hash[3], hash[4], hash[5], hash[6], hash[7],
    ]
}

/// The frame of a Reply. It takes no memory.
#[tactic(auto, unfolding(foz_words::specs::Bytes::le32, foz_words::specs::Bytes::le64, crate::specs::Frames::spelling, crate::specs::Frames::framed))]
pub fn reply_frame(key: &Key, code: u32) -> [u8; 21]
    ensures { result ≡ spelling (Reply key.now code) }
{
    let code = le32_bytes(code);
    let tag = le32_bytes(key.tag);
    let hash = le64_bytes(key.hash);
    [
        17, 0, 0, 0, 4, code[0], code[1], code[2], code[3], tag[0], tag[1], tag[2], tag[3],
        hash[0], hash[1], hash[2], hash[3], hash[4], hash[5], hash[6], hash[7],
    ]
}
