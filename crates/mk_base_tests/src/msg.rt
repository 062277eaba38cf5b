use mk_msg::{Body, Link, Msg, MsgKind};
use mk_txn::{TxnId, Vote};
use std::test::Fail;

const ATTEMPT: TxnId = TxnId { client: 0, seq: 1 };

fn message(replica: u32, body: Body) -> Msg {
    Msg {
        epoch: 0,
        id: ATTEMPT,
        replica,
        view: 0,
        body,
    }
}

#[test]
fn a_vote_that_is_sent_again_is_the_second_of_its_replica(rt: HostRuntime) -> Result<(), Fail> {
    let validate = message(1, Body::Validate { mark: 0 });
    let vote = message(1, Body::Voted(Vote::Ok));
    let mut link = Link::new(rt.alloc());
    link.reserve(4)?;
    let other = message(0, Body::Voted(Vote::Ok));
    for (number, msg) in [(1, validate), (2, vote), (3, other), (4, vote)] {
        assert!(rt; link.send(msg)? == number);
    }
    assert!(rt; link.len() == 4 && link.get(4).copied() == Some(vote) && link.get(5).is_none());
    for (kind, replica, count) in [
        (MsgKind::Vote, 1, 2),
        (MsgKind::Vote, 0, 1),
        (MsgKind::Validate, 1, 1),
    ] {
        assert!(rt; link.count(kind, ATTEMPT, replica) == count);
    }
    for (number, place) in [(3, Some(1)), (4, Some(2)), (5, None)] {
        assert!(rt; link.place(number) == place);
    }
    Ok(())
}
