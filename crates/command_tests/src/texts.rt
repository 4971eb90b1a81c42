//! Images of trees in an arena: `frame_asm` and `frame_code`.

mod images;
