use super::{Asked, Unasked, asked_of};
use std::test::Fail;

const fn asks(workers: u64, budget: u64) -> Result<Asked, Unasked> {
    Ok(Asked { workers, budget })
}

const NONE: Result<Asked, Unasked> = Err(Unasked::Refused);

#[test]
fn words_read(rt: HostRuntime) -> Result<(), Fail> {
    let alloc = rt.alloc();
    let rows: [(&[&str], Result<Asked, Unasked>); 16] = [
        (&[], asks(4, 1000)),
        (&["--workers", "3"], asks(3, 1000)),
        (&["--workers=3"], asks(3, 1000)),
        (&["--budget", "2000", "--workers", "16"], asks(16, 2000)),
        (&["--workers", "1", "--budget", "1"], asks(1, 1)),
        (&["--workers", "0"], NONE),
        (&["--workers", "17"], NONE),
        (&["--budget", "0"], NONE),
        (&["--budget", "2001"], NONE),
        (&["--budget", "5", "--budget", "5"], NONE),
        (&["--workers"], NONE),
        (&["--workers", "two"], NONE),
        (&["--help"], NONE),
        (&["-h"], NONE),
        (&["--version"], NONE),
        (&["trees"], NONE),
    ];
    for (texts, wanted) in rows {
        let mut words = Vec::new(alloc);
        for text in texts {
            words.push(String::from_str(alloc, text)?)?;
        }
        assert_eq!(rt; asked_of(alloc, &words), wanted);
    }
    Ok(())
}
