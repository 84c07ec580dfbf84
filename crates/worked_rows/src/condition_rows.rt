// Conditions, each of one monitor.
ghost use Rattle.worked_rows.specs.Conditions.{condition_of_outer_monitor, no_such_condition, without_the_lock, the_lock_acquired_last, cvsend_is_refused_in_order, conditions_go_with_their_monitor, in_use_while_waited_on, depth_comes_back, notify_wakes_the_greatest_priority, notify_by_present_priority, broadcast_in_arrival_order, the_woken_come_last, a_wait_hands_the_monitor_on, a_wait_gives_up_one_monitor, a_suspended_waiter};
ghost use Rattle.worked_rows.specs.Words.{IsWorked};

/// What the calls on conditions are refused for, and the lists of them.
pub fn conditions()
    ensures condition_of_outer_monitor { IsWorked condition_of_outer_monitor }
    ensures no_such_condition { IsWorked no_such_condition }
    ensures without_the_lock { IsWorked without_the_lock }
    ensures the_lock_acquired_last { IsWorked the_lock_acquired_last }
    ensures cvsend_is_refused_in_order { IsWorked cvsend_is_refused_in_order }
    ensures conditions_go_with_their_monitor { IsWorked conditions_go_with_their_monitor }
    ensures in_use_while_waited_on { IsWorked in_use_while_waited_on }
{}

/// Who is woken, and when it has its monitor again.
pub fn waking()
    ensures depth_comes_back { IsWorked depth_comes_back }
    ensures notify_wakes_the_greatest_priority { IsWorked notify_wakes_the_greatest_priority }
    ensures notify_by_present_priority { IsWorked notify_by_present_priority }
    ensures broadcast_in_arrival_order { IsWorked broadcast_in_arrival_order }
    ensures the_woken_come_last { IsWorked the_woken_come_last }
    ensures a_wait_hands_the_monitor_on { IsWorked a_wait_hands_the_monitor_on }
    ensures a_wait_gives_up_one_monitor { IsWorked a_wait_gives_up_one_monitor }
    ensures a_suspended_waiter { IsWorked a_suspended_waiter }
{}
