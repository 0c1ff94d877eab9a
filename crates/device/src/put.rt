// One block to be written, with its bytes.
use base::number::BlockNo;

#[derive(Clone, Copy, Default, PartialEq, Eq, Debug)]
pub struct Put {
    pub block: BlockNo,
    pub bytes: [u8; 512],
}
