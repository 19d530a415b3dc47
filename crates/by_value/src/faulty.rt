// Texts that are refused: the number, the value and the faulty line, of a plan alone and of a session.

use crate::told::{say, title};
use lines::FaultyPart;

// The number and the value of a refusal, 0 and 0 where there is none, and the faulty line between brackets.
fn tell_faulty(rt: &impl Print, told: Result<(), FaultyPart>) {
    match told {
        Ok(()) => title(rt, "0,0 []"),
        Err(part) => {
            let x = part.refusal;
            let _ = print!(rt; "{},{} [", x.number(), x.value());
            say(rt, part.line);
            title(rt, "]");
        }
    }
}

// P, P with a window of 0, P with nothing after its bounds line, and no text at all. Then P without its last LF, P with a step after it, P7, and P with a pair
// that is repeated.
fn plans(rt: &impl Print) {
    title(rt, "faulty lines of plans");
    let texts: [&[u8]; 8] = [
        b"window=10\nrounds=100\nlast=1000\njobs=1\nmin=2\nmax=4\nrelease=0\ndeadline=10\nbounds=2\nbound=ns1,ts1,12\nbound=ts1,ns1,-8\n",
        b"window=0\nrounds=100\nlast=1000\njobs=1\nmin=2\nmax=4\nrelease=0\ndeadline=10\nbounds=2\nbound=ns1,ts1,12\nbound=ts1,ns1,-8\n",
        b"window=10\nrounds=100\nlast=1000\njobs=1\nmin=2\nmax=4\nrelease=0\ndeadline=10\nbounds=2\n",
        b"",
        b"window=10\nrounds=100\nlast=1000\njobs=1\nmin=2\nmax=4\nrelease=0\ndeadline=10\nbounds=2\nbound=ns1,ts1,12\nbound=ts1,ns1,-8",
        b"window=10\nrounds=100\nlast=1000\njobs=1\nmin=2\nmax=4\nrelease=0\ndeadline=10\nbounds=0\nask=offer\nask=offer\n",
        b"window=10\nrounds=100\nlast=1000\njobs=1\nmin=2\nmax=11\nrelease=0\ndeadline=10\nbounds=0\n",
        b"window=10\nrounds=100\nlast=1000\njobs=1\nmin=2\nmax=4\nrelease=0\ndeadline=10\nbounds=2\nbound=ns1,ts1,12\nbound=ns1,ts1,-8\n",
    ];
    for text in texts {
        tell_faulty(rt, calendars::refused_in_plan(text));
    }
}

// Steps that are all taken, a step that lacks its form, one whose time is out of range, and one without its LF. Then P7 and the plan of rounds=6 of P5, each
// with a step that is not looked at; and a plan's own faulty line before any step.
fn sessions(rt: &impl Print) {
    title(rt, "faulty lines of sessions");
    let texts: [&[u8]; 7] = [
        b"window=10\nrounds=100\nlast=1000\njobs=1\nmin=2\nmax=4\nrelease=0\ndeadline=10\nbounds=0\nask=offer\nstart=20\nfinish=7\n",
        b"window=10\nrounds=100\nlast=1000\njobs=1\nmin=2\nmax=4\nrelease=0\ndeadline=10\nbounds=0\nask=offer\nstart=03\nfinish=7\n",
        b"window=10\nrounds=100\nlast=1000\njobs=1\nmin=2\nmax=4\nrelease=0\ndeadline=10\nbounds=0\nstart=auto\nfinish=100000000000000001\nask\n",
        b"window=10\nrounds=100\nlast=1000\njobs=1\nmin=2\nmax=4\nrelease=0\ndeadline=10\nbounds=0\nask=offer\nask=offer",
        b"window=10\nrounds=100\nlast=1000\njobs=1\nmin=2\nmax=11\nrelease=0\ndeadline=10\nbounds=0\nno step\n",
        b"window=10\nrounds=6\nlast=1000\njobs=1\nmin=2\nmax=4\nrelease=0\ndeadline=10\nbounds=1\nbound=ns1,ts1,9\nno step\n",
        b"window=10\nrounds=100\nlast=1000\njobs=1\nmin=2\nmax=1\nrelease=0\ndeadline=10\nbounds=0\nno step\n",
    ];
    for text in texts {
        tell_faulty(rt, session::refused_in_session(text));
    }
}

pub fn lines(rt: &impl Print) {
    plans(rt);
    sessions(rt);
}
