use crate::states::{Ends, ask, give, in_handshake, moved, opened, reply_of, take};
use psk_session::{AskFault, Reply, SessionRequest, Took};
use responder_session::{QueueFault, RspAct, RspState, RspTook};
use secured_record::RecordFault;
use spdm_grammar::Stage;
use spdm_grammar::names::request_code::{END_SESSION, KEY_UPDATE, PSK_FINISH};
use std::test::Fail;

// Both ends show the handshake under one hash, and then the open session under another.
#[test]
fn finish_opens(rt: HostRuntime) -> Result<(), Fail> {
    let (finishing, handshake) = in_handshake()?;
    let (asked, awaited) = (finishing.view(), handshake.view());
    assert_eq!(rt;
        (asked.stage, awaited.stage),
        (Stage::Handshake, Stage::Handshake)
    );
    assert!(rt; asked.hash.as_slice() == awaited.hash.as_slice());
    let (state, act) = moved(handshake.take(finishing.again())).ok_or("not taken")?;
    assert_eq!(rt; act, RspAct::Answered(PSK_FINISH));
    let open = opened(finishing.take(reply_of(&state)?.as_slice())).ok_or("not opened")?;
    let RspState::Open(other) = state else {
        return Err("not open".into());
    };
    let (own, its) = (open.view(), other.view());
    assert_eq!(rt; (own.stage, its.stage), (Stage::Open, Stage::Open));
    assert!(rt; own.hash.as_slice() == its.hash.as_slice());
    assert!(rt; own.hash.as_slice() != asked.hash.as_slice());
    Ok(())
}

// Application data are answered by the queue's first, and the same record again by the same reply.
#[test]
fn data_goes_both_ways(rt: HostRuntime) -> Result<(), Fail> {
    let Ends {
        requester,
        responder,
        inventory,
        mut app,
    } = Ends::open(&rt)?;
    assert_eq!(rt; app.push(&[0; 1025]), Err(QueueFault::TooLong));
    app.push(b"down")?;
    let waiting = ask(requester, SessionRequest::Data(b"up")).ok_or("not asked")?;
    let took = give(responder, waiting.again(), &inventory, &mut app).ok_or("spent")?;
    let (state, act) = moved(took).ok_or("not taken")?;
    assert_eq!(rt; act, RspAct::Data);
    let reply = reply_of(&state)?;
    let RspTook::Same(same) = give(state, waiting.again(), &inventory, &mut app).ok_or("spent")?
    else {
        return Err("no repeat".into());
    };
    assert!(rt; reply_of(&same)?.as_slice() == reply.as_slice());
    let RspState::Open(open) = same else {
        return Err("not open".into());
    };
    assert_eq!(rt; open.data(), b"up".as_slice());
    let Took::Answer(answered, reply) = take(waiting, reply.as_slice()).ok_or("spent")? else {
        return Err("not answered".into());
    };
    assert_eq!(rt; reply, Reply::Data);
    assert_eq!(rt; answered.data(), b"down".as_slice());
    Ok(())
}

// UpdateAllKeys is followed by VerifyNewKey, and then both keys have epoch 1 at both ends.
#[test]
fn update_of_both_keys(rt: HostRuntime) -> Result<(), Fail> {
    let Ends {
        requester,
        responder,
        inventory,
        mut app,
    } = Ends::open(&rt)?;
    let waiting = ask(requester, SessionRequest::UpdateAll).ok_or("not asked")?;
    let took = give(responder, waiting.again(), &inventory, &mut app).ok_or("spent")?;
    let (state, act) = moved(took).ok_or("not taken")?;
    assert_eq!(rt; act, RspAct::Answered(KEY_UPDATE));
    let Took::Next(verify) = take(waiting, reply_of(&state)?.as_slice()).ok_or("spent")? else {
        return Err("nothing to verify".into());
    };
    let RspState::Verifying(verifying) = state else {
        return Err("not verifying".into());
    };
    assert_eq!(rt;
        (verify.view().stage, verifying.view().stage),
        (Stage::Verifying, Stage::Verifying)
    );
    let (state, act) = moved(verifying.take(verify.again())).ok_or("not taken")?;
    assert_eq!(rt; act, RspAct::Answered(KEY_UPDATE));
    let Took::Answer(updated, reply) = take(verify, reply_of(&state)?.as_slice()).ok_or("spent")?
    else {
        return Err("not answered".into());
    };
    assert_eq!(rt; reply, Reply::Updated);
    let RspState::Open(open) = state else {
        return Err("not open".into());
    };
    let (own, its) = (updated.view(), open.view());
    assert_eq!(rt; (own.request_epoch, own.response_epoch), (1, 1));
    assert_eq!(rt; (its.request_epoch, its.response_epoch), (1, 1));
    Ok(())
}

// An ended session knows the repeat of END_SESSION, and opens nothing else.
#[test]
fn ended_session_repeats(rt: HostRuntime) -> Result<(), Fail> {
    let Ends {
        requester,
        responder,
        inventory,
        mut app,
    } = Ends::open(&rt)?;
    let waiting = ask(requester, SessionRequest::End).ok_or("not asked")?;
    let took = give(responder, waiting.again(), &inventory, &mut app).ok_or("spent")?;
    let (state, act) = moved(took).ok_or("not taken")?;
    assert_eq!(rt; act, RspAct::Answered(END_SESSION));
    let reply = reply_of(&state)?;
    let RspTook::Same(same) = give(state, waiting.again(), &inventory, &mut app).ok_or("spent")?
    else {
        return Err("no repeat".into());
    };
    let RspTook::Unopened(ended, fault) = give(same, &[], &inventory, &mut app).ok_or("spent")?
    else {
        return Err("taken".into());
    };
    assert_eq!(rt; fault, RecordFault::Short);
    assert!(rt; reply_of(&ended)?.as_slice() == reply.as_slice());
    assert!(rt; matches!(take(waiting, reply.as_slice()), Some(Took::Ended(_))));
    Ok(())
}

// A record that does not open, and a request that both ends did not agree upon, leave what they came to.
#[test]
fn faults_change_nothing(rt: HostRuntime) -> Result<(), Fail> {
    let Ends { requester, .. } = Ends::open(&rt)?;
    if requester.view().response_epoch == u64::MAX {
        return Err("spent".into());
    }
    let Err((open, fault)) = requester.ask(SessionRequest::Measure { op: 0 }, &[]) else {
        return Err("asked".into());
    };
    assert_eq!(rt; fault, AskFault::NotNegotiated);
    let waiting = ask(open, SessionRequest::Beat).ok_or("not asked")?;
    let Some(Took::Stay(still, fault)) = take(waiting, &[0; 26]) else {
        return Err("taken".into());
    };
    assert_eq!(rt; fault, RecordFault::WrongId);
    assert_eq!(rt; still.view().stage, Stage::Open);
    Ok(())
}
