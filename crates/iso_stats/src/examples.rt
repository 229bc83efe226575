//! Worked examples of the definitions: each function does nothing, and its contract is what is
//! computed.
ghost use Rattle.std.specs.Prelude.{◌≡◌, ◌++◌, None, codes};
ghost use Rattle.iso_plan.specs.Examples.{cart_and_desk};
ghost use Rattle.iso_stats.specs.Examples.{best_without_k, chain_of_k, chain_of_root, figures_of_four, figures_of_one, waited_for_k};
ghost use Rattle.iso_stats.specs.Shares.{at_best, percent};
ghost use Rattle.iso_stats.specs.StatsText.{best_line, chain_line, first_line, stats_text, waited_line};
ghost use Rattle.iso_stats.specs.Times.{hundredths, microseconds, time};

/// Times are cut off after two decimals, in the largest unit of which there is one.
pub fn times_are_told_in_three_units()
    ensures seconds { time 3100000000 ≡ codes "3.10 s" }
    ensures cut { time 5819999999 ≡ codes "5.81 s" }
    ensures one { time 1000000000 ≡ codes "1.00 s" }
    ensures milliseconds { time 999999999 ≡ codes "999.99 ms" }
    ensures few { time 1009999 ≡ codes "1.00 ms" }
    ensures below { time 999999 ≡ codes "999.99" ++ microseconds }
    ensures none { time 0 ≡ codes "0.00" ++ microseconds }
{}

/// The lines of a run of four workers.
pub fn lines_of_a_run()
    ensures first { first_line figures_of_four
        ≡ codes "400 tests, 4 of 4 workers, 5.81 s; busy 61 %\n" }
    ensures waited { waited_line cart_and_desk waited_for_k
        ≡ codes "waited 3.10 s for K (shop.Cart.a for shop.Desk 1.90 s; ..)\n" }
    ensures chain { chain_line cart_and_desk chain_of_k
        ≡ codes "longest chain 4.20 s: K: shop.Desk, shop.Cart.b, shop.Cart.a, ..\n" }
    ensures best { best_line cart_and_desk best_without_k
        ≡ codes "at best 1.4 times as fast as one worker; without K 3.6 times\n" }
{}

/// Of one test on one worker a line is told. A chain of the root's is told as that of the top
/// level.
pub fn lines_that_dont_apply_are_left_out()
    ensures one { stats_text cart_and_desk figures_of_one
        ≡ codes "1 test, 1 of 1 worker, 12.34 ms; busy 99 %\n" }
    ensures root { chain_line cart_and_desk chain_of_root
        ≡ codes "longest chain 61.50" ++ microseconds
        ++ codes ": top level: shop.Cart, shop.Desk\n" }
{}

/// Parts are cut off. Where nothing was measured, or no worker was started, they are none.
pub fn parts_of_times()
    ensures busy { percent 14176400000 4 5810000000 ≡ 61 }
    ensures cut { percent 14176399999 4 5810000000 ≡ 60 }
    ensures whole { percent 4000 4 1000 ≡ 100 }
    ensures unmeasured { percent 0 4 0 ≡ 0 }
    ensures unstarted { percent 5 0 5 ≡ 0 }
    ensures chain { at_best 600 4 420 ≡ 14 }
    ensures workers { at_best 600 4 100 ≡ 40 }
    ensures nothing { at_best 0 4 0 ≡ 0 }
{}
