//! What no clause says: that memory suffices for UARTs in boxes, and how calls of a board follow one another.

use crate::Board;
use std::test::Fail;
use xm_outside::{MemUart, SureUart};

#[test]
fn a_place_has_one_uart(rt: HostRuntime) -> Result<(), Fail> {
    let mut board = Board::new();
    let first = MemUart::new(rt.alloc(), Vec::new(rt.alloc()), 0);
    assert!(rt; board.set(0, Box::new(rt.alloc(), first)?).is_none());
    board.say(1, b"a");
    assert_eq!(rt; board.failed(), None);
    assert!(rt;
        board
            .set(0, Box::new(rt.alloc(), SureUart::new())?)
            .is_some()
    );
    assert!(rt; board.take(0).is_some());
    assert!(rt; board.take(0).is_none());
    Ok(())
}

#[test]
fn a_place_is_marked_until_the_next_run(rt: HostRuntime) -> Result<(), Fail> {
    let mut board = Board::new();
    let late = MemUart::new(rt.alloc(), vec![in rt.alloc(); 1]?, 2);
    board.set(6, Box::new(rt.alloc(), late)?);
    let early = MemUart::new(rt.alloc(), vec![in rt.alloc(); 0]?, 2);
    board.set(3, Box::new(rt.alloc(), early)?);
    for (place, failed) in [(6, None), (6, Some(6)), (3, Some(3)), (3, Some(3))] {
        board.say(place, b"abc");
        assert_eq!(rt; board.failed(), failed);
    }
    assert!(rt; board.take(3).is_none());
    let again = MemUart::new(rt.alloc(), vec![in rt.alloc(); 0]?, 2);
    assert!(rt; board.set(3, Box::new(rt.alloc(), again)?).is_none());
    assert_eq!(rt; board.failed(), Some(3));
    board.say(3, b"abc");
    assert!(rt; board.take(3).is_none());
    board.begin();
    board.say(6, b"abc");
    assert_eq!(rt; board.failed(), None);
    Ok(())
}
