//! Results of the instructions, stated from outside: computed by a model in Python that was written from the RISC-V manual.
//! Each line begins with the name of an instruction and its word. All numbers are hexadecimal.

/// Then what is in x10, and what comes into x12 with each of the six operands in x11.
pub(crate) fn two_registers() -> &'static str {
    "\
add b50633 0 0 1 ffffffffffffffff 80000000 8000000000000000 7fffffffffffffff\n\
add b50633 1 1 2 0 80000001 8000000000000001 8000000000000000\n\
add b50633 ffffffffffffffff ffffffffffffffff 0 fffffffffffffffe 7fffffff 7fffffffffffffff 7ffffffffffffffe\n\
add b50633 80000000 80000000 80000001 7fffffff 100000000 8000000080000000 800000007fffffff\n\
add b50633 8000000000000000 8000000000000000 8000000000000001 7fffffffffffffff 8000000080000000 0 ffffffffffffffff\n\
add b50633 7fffffffffffffff 7fffffffffffffff 8000000000000000 7ffffffffffffffe 800000007fffffff ffffffffffffffff fffffffffffffffe\n\
sub 40b50633 0 0 ffffffffffffffff 1 ffffffff80000000 8000000000000000 8000000000000001\n\
sub 40b50633 1 1 0 2 ffffffff80000001 8000000000000001 8000000000000002\n\
sub 40b50633 ffffffffffffffff ffffffffffffffff fffffffffffffffe 0 ffffffff7fffffff 7fffffffffffffff 8000000000000000\n\
sub 40b50633 80000000 80000000 7fffffff 80000001 0 8000000080000000 8000000080000001\n\
sub 40b50633 8000000000000000 8000000000000000 7fffffffffffffff 8000000000000001 7fffffff80000000 0 1\n\
sub 40b50633 7fffffffffffffff 7fffffffffffffff 7ffffffffffffffe 8000000000000000 7fffffff7fffffff ffffffffffffffff 0\n\
sll b51633 0 0 0 0 0 0 0\n\
sll b51633 1 1 2 8000000000000000 1 1 8000000000000000\n\
sll b51633 ffffffffffffffff ffffffffffffffff fffffffffffffffe 8000000000000000 ffffffffffffffff ffffffffffffffff 8000000000000000\n\
sll b51633 80000000 80000000 100000000 0 80000000 80000000 0\n\
sll b51633 8000000000000000 8000000000000000 0 0 8000000000000000 8000000000000000 0\n\
sll b51633 7fffffffffffffff 7fffffffffffffff fffffffffffffffe 8000000000000000 7fffffffffffffff 7fffffffffffffff 8000000000000000\n\
slt b52633 0 0 1 0 1 0 1\n\
slt b52633 1 0 0 0 1 0 1\n\
slt b52633 ffffffffffffffff 1 1 0 1 0 1\n\
slt b52633 80000000 0 0 0 0 0 1\n\
slt b52633 8000000000000000 1 1 1 1 0 1\n\
slt b52633 7fffffffffffffff 0 0 0 0 0 0\n\
sltu b53633 0 0 1 1 1 1 1\n\
sltu b53633 1 0 0 1 1 1 1\n\
sltu b53633 ffffffffffffffff 0 0 0 0 0 0\n\
sltu b53633 80000000 0 0 1 0 1 1\n\
sltu b53633 8000000000000000 0 0 1 0 0 0\n\
sltu b53633 7fffffffffffffff 0 0 1 0 1 0\n\
xor b54633 0 0 1 ffffffffffffffff 80000000 8000000000000000 7fffffffffffffff\n\
xor b54633 1 1 0 fffffffffffffffe 80000001 8000000000000001 7ffffffffffffffe\n\
xor b54633 ffffffffffffffff ffffffffffffffff fffffffffffffffe 0 ffffffff7fffffff 7fffffffffffffff 8000000000000000\n\
xor b54633 80000000 80000000 80000001 ffffffff7fffffff 0 8000000080000000 7fffffff7fffffff\n\
xor b54633 8000000000000000 8000000000000000 8000000000000001 7fffffffffffffff 8000000080000000 0 ffffffffffffffff\n\
xor b54633 7fffffffffffffff 7fffffffffffffff 7ffffffffffffffe 8000000000000000 7fffffff7fffffff ffffffffffffffff 0\n\
srl b55633 0 0 0 0 0 0 0\n\
srl b55633 1 1 0 0 1 1 0\n\
srl b55633 ffffffffffffffff ffffffffffffffff 7fffffffffffffff 1 ffffffffffffffff ffffffffffffffff 1\n\
srl b55633 80000000 80000000 40000000 0 80000000 80000000 0\n\
srl b55633 8000000000000000 8000000000000000 4000000000000000 1 8000000000000000 8000000000000000 1\n\
srl b55633 7fffffffffffffff 7fffffffffffffff 3fffffffffffffff 0 7fffffffffffffff 7fffffffffffffff 0\n\
sra 40b55633 0 0 0 0 0 0 0\n\
sra 40b55633 1 1 0 0 1 1 0\n\
sra 40b55633 ffffffffffffffff ffffffffffffffff ffffffffffffffff ffffffffffffffff ffffffffffffffff ffffffffffffffff ffffffffffffffff\n\
sra 40b55633 80000000 80000000 40000000 0 80000000 80000000 0\n\
sra 40b55633 8000000000000000 8000000000000000 c000000000000000 ffffffffffffffff 8000000000000000 8000000000000000 ffffffffffffffff\n\
sra 40b55633 7fffffffffffffff 7fffffffffffffff 3fffffffffffffff 0 7fffffffffffffff 7fffffffffffffff 0\n\
or b56633 0 0 1 ffffffffffffffff 80000000 8000000000000000 7fffffffffffffff\n\
or b56633 1 1 1 ffffffffffffffff 80000001 8000000000000001 7fffffffffffffff\n\
or b56633 ffffffffffffffff ffffffffffffffff ffffffffffffffff ffffffffffffffff ffffffffffffffff ffffffffffffffff ffffffffffffffff\n\
or b56633 80000000 80000000 80000001 ffffffffffffffff 80000000 8000000080000000 7fffffffffffffff\n\
or b56633 8000000000000000 8000000000000000 8000000000000001 ffffffffffffffff 8000000080000000 8000000000000000 ffffffffffffffff\n\
or b56633 7fffffffffffffff 7fffffffffffffff 7fffffffffffffff ffffffffffffffff 7fffffffffffffff ffffffffffffffff 7fffffffffffffff\n\
and b57633 0 0 0 0 0 0 0\n\
and b57633 1 0 1 1 0 0 1\n\
and b57633 ffffffffffffffff 0 1 ffffffffffffffff 80000000 8000000000000000 7fffffffffffffff\n\
and b57633 80000000 0 0 80000000 80000000 0 80000000\n\
and b57633 8000000000000000 0 0 8000000000000000 0 8000000000000000 0\n\
and b57633 7fffffffffffffff 0 1 7fffffffffffffff 80000000 0 7fffffffffffffff\n\
mul 2b50633 0 0 0 0 0 0 0\n\
mul 2b50633 1 0 1 ffffffffffffffff 80000000 8000000000000000 7fffffffffffffff\n\
mul 2b50633 ffffffffffffffff 0 ffffffffffffffff 1 ffffffff80000000 8000000000000000 8000000000000001\n\
mul 2b50633 80000000 0 80000000 ffffffff80000000 4000000000000000 0 ffffffff80000000\n\
mul 2b50633 8000000000000000 0 8000000000000000 8000000000000000 0 0 8000000000000000\n\
mul 2b50633 7fffffffffffffff 0 7fffffffffffffff 8000000000000001 ffffffff80000000 8000000000000000 1\n\
mulh 2b51633 0 0 0 0 0 0 0\n\
mulh 2b51633 1 0 0 ffffffffffffffff 0 ffffffffffffffff 0\n\
mulh 2b51633 ffffffffffffffff 0 ffffffffffffffff 0 ffffffffffffffff 0 ffffffffffffffff\n\
mulh 2b51633 80000000 0 0 ffffffffffffffff 0 ffffffffc0000000 3fffffff\n\
mulh 2b51633 8000000000000000 0 ffffffffffffffff 0 ffffffffc0000000 4000000000000000 c000000000000000\n\
mulh 2b51633 7fffffffffffffff 0 0 ffffffffffffffff 3fffffff c000000000000000 3fffffffffffffff\n\
mulhsu 2b52633 0 0 0 0 0 0 0\n\
mulhsu 2b52633 1 0 0 0 0 0 0\n\
mulhsu 2b52633 ffffffffffffffff 0 ffffffffffffffff ffffffffffffffff ffffffffffffffff ffffffffffffffff ffffffffffffffff\n\
mulhsu 2b52633 80000000 0 0 7fffffff 0 40000000 3fffffff\n\
mulhsu 2b52633 8000000000000000 0 ffffffffffffffff 8000000000000000 ffffffffc0000000 c000000000000000 c000000000000000\n\
mulhsu 2b52633 7fffffffffffffff 0 0 7ffffffffffffffe 3fffffff 3fffffffffffffff 3fffffffffffffff\n\
mulhu 2b53633 0 0 0 0 0 0 0\n\
mulhu 2b53633 1 0 0 0 0 0 0\n\
mulhu 2b53633 ffffffffffffffff 0 0 fffffffffffffffe 7fffffff 7fffffffffffffff 7ffffffffffffffe\n\
mulhu 2b53633 80000000 0 0 7fffffff 0 40000000 3fffffff\n\
mulhu 2b53633 8000000000000000 0 0 7fffffffffffffff 40000000 4000000000000000 3fffffffffffffff\n\
mulhu 2b53633 7fffffffffffffff 0 0 7ffffffffffffffe 3fffffff 3fffffffffffffff 3fffffffffffffff\n\
div 2b54633 0 ffffffffffffffff 0 0 0 0 0\n\
div 2b54633 1 ffffffffffffffff 1 ffffffffffffffff 0 0 0\n\
div 2b54633 ffffffffffffffff ffffffffffffffff ffffffffffffffff 1 0 0 0\n\
div 2b54633 80000000 ffffffffffffffff 80000000 ffffffff80000000 1 0 0\n\
div 2b54633 8000000000000000 ffffffffffffffff 8000000000000000 8000000000000000 ffffffff00000000 1 ffffffffffffffff\n\
div 2b54633 7fffffffffffffff ffffffffffffffff 7fffffffffffffff 8000000000000001 ffffffff 0 1\n\
divu 2b55633 0 ffffffffffffffff 0 0 0 0 0\n\
divu 2b55633 1 ffffffffffffffff 1 0 0 0 0\n\
divu 2b55633 ffffffffffffffff ffffffffffffffff ffffffffffffffff 1 1ffffffff 1 2\n\
divu 2b55633 80000000 ffffffffffffffff 80000000 0 1 0 0\n\
divu 2b55633 8000000000000000 ffffffffffffffff 8000000000000000 0 100000000 1 1\n\
divu 2b55633 7fffffffffffffff ffffffffffffffff 7fffffffffffffff 0 ffffffff 0 1\n\
rem 2b56633 0 0 0 0 0 0 0\n\
rem 2b56633 1 1 0 0 1 1 1\n\
rem 2b56633 ffffffffffffffff ffffffffffffffff 0 0 ffffffffffffffff ffffffffffffffff ffffffffffffffff\n\
rem 2b56633 80000000 80000000 0 0 0 80000000 80000000\n\
rem 2b56633 8000000000000000 8000000000000000 0 0 0 0 ffffffffffffffff\n\
rem 2b56633 7fffffffffffffff 7fffffffffffffff 0 0 7fffffff 7fffffffffffffff 0\n\
remu 2b57633 0 0 0 0 0 0 0\n\
remu 2b57633 1 1 0 1 1 1 1\n\
remu 2b57633 ffffffffffffffff ffffffffffffffff 0 0 7fffffff 7fffffffffffffff 1\n\
remu 2b57633 80000000 80000000 0 80000000 0 80000000 80000000\n\
remu 2b57633 8000000000000000 8000000000000000 0 8000000000000000 0 0 1\n\
remu 2b57633 7fffffffffffffff 7fffffffffffffff 0 7fffffffffffffff 7fffffff 7fffffffffffffff 0\n\
addw b5063b 0 0 1 ffffffffffffffff ffffffff80000000 0 ffffffffffffffff\n\
addw b5063b 1 1 2 0 ffffffff80000001 1 0\n\
addw b5063b ffffffffffffffff ffffffffffffffff 0 fffffffffffffffe 7fffffff ffffffffffffffff fffffffffffffffe\n\
addw b5063b 80000000 ffffffff80000000 ffffffff80000001 7fffffff 0 ffffffff80000000 7fffffff\n\
addw b5063b 8000000000000000 0 1 ffffffffffffffff ffffffff80000000 0 ffffffffffffffff\n\
addw b5063b 7fffffffffffffff ffffffffffffffff 0 fffffffffffffffe 7fffffff ffffffffffffffff fffffffffffffffe\n\
subw 40b5063b 0 0 ffffffffffffffff 1 ffffffff80000000 0 1\n\
subw 40b5063b 1 1 0 2 ffffffff80000001 1 2\n\
subw 40b5063b ffffffffffffffff ffffffffffffffff fffffffffffffffe 0 7fffffff ffffffffffffffff 0\n\
subw 40b5063b 80000000 ffffffff80000000 7fffffff ffffffff80000001 0 ffffffff80000000 ffffffff80000001\n\
subw 40b5063b 8000000000000000 0 ffffffffffffffff 1 ffffffff80000000 0 1\n\
subw 40b5063b 7fffffffffffffff ffffffffffffffff fffffffffffffffe 0 7fffffff ffffffffffffffff 0\n\
sllw b5163b 0 0 0 0 0 0 0\n\
sllw b5163b 1 1 2 ffffffff80000000 1 1 ffffffff80000000\n\
sllw b5163b ffffffffffffffff ffffffffffffffff fffffffffffffffe ffffffff80000000 ffffffffffffffff ffffffffffffffff ffffffff80000000\n\
sllw b5163b 80000000 ffffffff80000000 0 0 ffffffff80000000 ffffffff80000000 0\n\
sllw b5163b 8000000000000000 0 0 0 0 0 0\n\
sllw b5163b 7fffffffffffffff ffffffffffffffff fffffffffffffffe ffffffff80000000 ffffffffffffffff ffffffffffffffff ffffffff80000000\n\
srlw b5563b 0 0 0 0 0 0 0\n\
srlw b5563b 1 1 0 0 1 1 0\n\
srlw b5563b ffffffffffffffff ffffffffffffffff 7fffffff 1 ffffffffffffffff ffffffffffffffff 1\n\
srlw b5563b 80000000 ffffffff80000000 40000000 1 ffffffff80000000 ffffffff80000000 1\n\
srlw b5563b 8000000000000000 0 0 0 0 0 0\n\
srlw b5563b 7fffffffffffffff ffffffffffffffff 7fffffff 1 ffffffffffffffff ffffffffffffffff 1\n\
sraw 40b5563b 0 0 0 0 0 0 0\n\
sraw 40b5563b 1 1 0 0 1 1 0\n\
sraw 40b5563b ffffffffffffffff ffffffffffffffff ffffffffffffffff ffffffffffffffff ffffffffffffffff ffffffffffffffff ffffffffffffffff\n\
sraw 40b5563b 80000000 ffffffff80000000 ffffffffc0000000 ffffffffffffffff ffffffff80000000 ffffffff80000000 ffffffffffffffff\n\
sraw 40b5563b 8000000000000000 0 0 0 0 0 0\n\
sraw 40b5563b 7fffffffffffffff ffffffffffffffff ffffffffffffffff ffffffffffffffff ffffffffffffffff ffffffffffffffff ffffffffffffffff\n\
mulw 2b5063b 0 0 0 0 0 0 0\n\
mulw 2b5063b 1 0 1 ffffffffffffffff ffffffff80000000 0 ffffffffffffffff\n\
mulw 2b5063b ffffffffffffffff 0 ffffffffffffffff 1 ffffffff80000000 0 1\n\
mulw 2b5063b 80000000 0 ffffffff80000000 ffffffff80000000 0 0 ffffffff80000000\n\
mulw 2b5063b 8000000000000000 0 0 0 0 0 0\n\
mulw 2b5063b 7fffffffffffffff 0 ffffffffffffffff 1 ffffffff80000000 0 1\n\
divw 2b5463b 0 ffffffffffffffff 0 0 0 ffffffffffffffff 0\n\
divw 2b5463b 1 ffffffffffffffff 1 ffffffffffffffff 0 ffffffffffffffff ffffffffffffffff\n\
divw 2b5463b ffffffffffffffff ffffffffffffffff ffffffffffffffff 1 0 ffffffffffffffff 1\n\
divw 2b5463b 80000000 ffffffffffffffff ffffffff80000000 ffffffff80000000 1 ffffffffffffffff ffffffff80000000\n\
divw 2b5463b 8000000000000000 ffffffffffffffff 0 0 0 ffffffffffffffff 0\n\
divw 2b5463b 7fffffffffffffff ffffffffffffffff ffffffffffffffff 1 0 ffffffffffffffff 1\n\
divuw 2b5563b 0 ffffffffffffffff 0 0 0 ffffffffffffffff 0\n\
divuw 2b5563b 1 ffffffffffffffff 1 0 0 ffffffffffffffff 0\n\
divuw 2b5563b ffffffffffffffff ffffffffffffffff ffffffffffffffff 1 1 ffffffffffffffff 1\n\
divuw 2b5563b 80000000 ffffffffffffffff ffffffff80000000 0 1 ffffffffffffffff 0\n\
divuw 2b5563b 8000000000000000 ffffffffffffffff 0 0 0 ffffffffffffffff 0\n\
divuw 2b5563b 7fffffffffffffff ffffffffffffffff ffffffffffffffff 1 1 ffffffffffffffff 1\n\
remw 2b5663b 0 0 0 0 0 0 0\n\
remw 2b5663b 1 1 0 0 1 1 0\n\
remw 2b5663b ffffffffffffffff ffffffffffffffff 0 0 ffffffffffffffff ffffffffffffffff 0\n\
remw 2b5663b 80000000 ffffffff80000000 0 0 0 ffffffff80000000 0\n\
remw 2b5663b 8000000000000000 0 0 0 0 0 0\n\
remw 2b5663b 7fffffffffffffff ffffffffffffffff 0 0 ffffffffffffffff ffffffffffffffff 0\n\
remuw 2b5763b 0 0 0 0 0 0 0\n\
remuw 2b5763b 1 1 0 1 1 1 1\n\
remuw 2b5763b ffffffffffffffff ffffffffffffffff 0 0 7fffffff ffffffffffffffff 0\n\
remuw 2b5763b 80000000 ffffffff80000000 0 ffffffff80000000 0 ffffffff80000000 ffffffff80000000\n\
remuw 2b5763b 8000000000000000 0 0 0 0 0 0\n\
remuw 2b5763b 7fffffffffffffff ffffffffffffffff 0 0 7fffffff ffffffffffffffff 0"
}

/// Then what comes into x12 with each of the six operands in x10.
pub(crate) fn one_register() -> &'static str {
    "\
addi 50613 0 1 ffffffffffffffff 80000000 8000000000000000 7fffffffffffffff\n\
addi 150613 1 2 0 80000001 8000000000000001 8000000000000000\n\
addi fff50613 ffffffffffffffff 0 fffffffffffffffe 7fffffff 7fffffffffffffff 7ffffffffffffffe\n\
addi 7ff50613 7ff 800 7fe 800007ff 80000000000007ff 80000000000007fe\n\
addi 80050613 fffffffffffff800 fffffffffffff801 fffffffffffff7ff 7ffff800 7ffffffffffff800 7ffffffffffff7ff\n\
slti 52613 0 0 1 0 1 0\n\
slti 152613 1 0 1 0 1 0\n\
slti fff52613 0 0 0 0 1 0\n\
slti 7ff52613 1 1 1 0 1 0\n\
slti 80052613 0 0 0 0 1 0\n\
sltiu 53613 0 0 0 0 0 0\n\
sltiu 153613 1 0 0 0 0 0\n\
sltiu fff53613 1 1 0 1 1 1\n\
sltiu 7ff53613 1 1 0 0 0 0\n\
sltiu 80053613 1 1 0 1 1 1\n\
xori 54613 0 1 ffffffffffffffff 80000000 8000000000000000 7fffffffffffffff\n\
xori 154613 1 0 fffffffffffffffe 80000001 8000000000000001 7ffffffffffffffe\n\
xori fff54613 ffffffffffffffff fffffffffffffffe 0 ffffffff7fffffff 7fffffffffffffff 8000000000000000\n\
xori 7ff54613 7ff 7fe fffffffffffff800 800007ff 80000000000007ff 7ffffffffffff800\n\
xori 80054613 fffffffffffff800 fffffffffffff801 7ff ffffffff7ffff800 7ffffffffffff800 80000000000007ff\n\
ori 56613 0 1 ffffffffffffffff 80000000 8000000000000000 7fffffffffffffff\n\
ori 156613 1 1 ffffffffffffffff 80000001 8000000000000001 7fffffffffffffff\n\
ori fff56613 ffffffffffffffff ffffffffffffffff ffffffffffffffff ffffffffffffffff ffffffffffffffff ffffffffffffffff\n\
ori 7ff56613 7ff 7ff ffffffffffffffff 800007ff 80000000000007ff 7fffffffffffffff\n\
ori 80056613 fffffffffffff800 fffffffffffff801 ffffffffffffffff fffffffffffff800 fffffffffffff800 ffffffffffffffff\n\
andi 57613 0 0 0 0 0 0\n\
andi 157613 0 1 1 0 0 1\n\
andi fff57613 0 1 ffffffffffffffff 80000000 8000000000000000 7fffffffffffffff\n\
andi 7ff57613 0 1 7ff 0 0 7ff\n\
andi 80057613 0 0 fffffffffffff800 80000000 8000000000000000 7ffffffffffff800\n\
addiw 5061b 0 1 ffffffffffffffff ffffffff80000000 0 ffffffffffffffff\n\
addiw 15061b 1 2 0 ffffffff80000001 1 0\n\
addiw fff5061b ffffffffffffffff 0 fffffffffffffffe 7fffffff ffffffffffffffff fffffffffffffffe\n\
addiw 7ff5061b 7ff 800 7fe ffffffff800007ff 7ff 7fe\n\
addiw 8005061b fffffffffffff800 fffffffffffff801 fffffffffffff7ff 7ffff800 fffffffffffff800 fffffffffffff7ff\n\
slli 51613 0 1 ffffffffffffffff 80000000 8000000000000000 7fffffffffffffff\n\
slli 151613 0 2 fffffffffffffffe 100000000 0 fffffffffffffffe\n\
slli 1f51613 0 80000000 ffffffff80000000 4000000000000000 0 ffffffff80000000\n\
slli 2051613 0 100000000 ffffffff00000000 8000000000000000 0 ffffffff00000000\n\
slli 3f51613 0 8000000000000000 8000000000000000 0 0 8000000000000000\n\
srli 55613 0 1 ffffffffffffffff 80000000 8000000000000000 7fffffffffffffff\n\
srli 155613 0 0 7fffffffffffffff 40000000 4000000000000000 3fffffffffffffff\n\
srli 1f55613 0 0 1ffffffff 1 100000000 ffffffff\n\
srli 2055613 0 0 ffffffff 0 80000000 7fffffff\n\
srli 3f55613 0 0 1 0 1 0\n\
srai 40055613 0 1 ffffffffffffffff 80000000 8000000000000000 7fffffffffffffff\n\
srai 40155613 0 0 ffffffffffffffff 40000000 c000000000000000 3fffffffffffffff\n\
srai 41f55613 0 0 ffffffffffffffff 1 ffffffff00000000 ffffffff\n\
srai 42055613 0 0 ffffffffffffffff 0 ffffffff80000000 7fffffff\n\
srai 43f55613 0 0 ffffffffffffffff 0 ffffffffffffffff 0\n\
slliw 5161b 0 1 ffffffffffffffff ffffffff80000000 0 ffffffffffffffff\n\
slliw 15161b 0 2 fffffffffffffffe 0 0 fffffffffffffffe\n\
slliw 1f5161b 0 ffffffff80000000 ffffffff80000000 0 0 ffffffff80000000\n\
srliw 5561b 0 1 ffffffffffffffff ffffffff80000000 0 ffffffffffffffff\n\
srliw 15561b 0 0 7fffffff 40000000 0 7fffffff\n\
srliw 1f5561b 0 0 1 1 0 1\n\
sraiw 4005561b 0 1 ffffffffffffffff ffffffff80000000 0 ffffffffffffffff\n\
sraiw 4015561b 0 0 ffffffffffffffff ffffffffc0000000 0 ffffffffffffffff\n\
sraiw 41f5561b 0 0 ffffffffffffffff ffffffffffffffff 0 ffffffffffffffff\n\
lui 637 0 0 0 0 0 0\n\
lui 1637 1000 1000 1000 1000 1000 1000\n\
lui 7ffff637 7ffff000 7ffff000 7ffff000 7ffff000 7ffff000 7ffff000\n\
lui 80000637 ffffffff80000000 ffffffff80000000 ffffffff80000000 ffffffff80000000 ffffffff80000000 ffffffff80000000\n\
lui fffff637 fffffffffffff000 fffffffffffff000 fffffffffffff000 fffffffffffff000 fffffffffffff000 fffffffffffff000\n\
auipc 617 10000 10000 10000 10000 10000 10000\n\
auipc 1617 11000 11000 11000 11000 11000 11000\n\
auipc 80000617 ffffffff80010000 ffffffff80010000 ffffffff80010000 ffffffff80010000 ffffffff80010000 ffffffff80010000\n\
auipc fffff617 f000 f000 f000 f000 f000 f000"
}

/// Then what is in x10, and the next address with each of the six operands in x11.
pub(crate) fn branches() -> &'static str {
    "\
beq b50463 0 10008 10004 10004 10004 10004 10004\n\
beq feb50ee3 1 10004 fffc 10004 10004 10004 10004\n\
beq 7eb50fe3 ffffffffffffffff 10004 10004 10ffe 10004 10004 10004\n\
beq 80b50063 80000000 10004 10004 10004 f000 10004 10004\n\
beq b500e3 8000000000000000 10004 10004 10004 10004 10800 10004\n\
beq b50863 7fffffffffffffff 10004 10004 10004 10004 10004 10010\n\
bne b51463 0 10004 10008 10008 10008 10008 10008\n\
bne feb51ee3 1 fffc 10004 fffc fffc fffc fffc\n\
bne 7eb51fe3 ffffffffffffffff 10ffe 10ffe 10004 10ffe 10ffe 10ffe\n\
bne 80b51063 80000000 f000 f000 f000 10004 f000 f000\n\
bne b510e3 8000000000000000 10800 10800 10800 10800 10004 10800\n\
bne b51863 7fffffffffffffff 10010 10010 10010 10010 10010 10004\n\
blt b54463 0 10004 10008 10004 10008 10004 10008\n\
blt feb54ee3 1 10004 10004 10004 fffc 10004 fffc\n\
blt 7eb54fe3 ffffffffffffffff 10ffe 10ffe 10004 10ffe 10004 10ffe\n\
blt 80b54063 80000000 10004 10004 10004 10004 10004 f000\n\
blt b540e3 8000000000000000 10800 10800 10800 10800 10004 10800\n\
blt b54863 7fffffffffffffff 10004 10004 10004 10004 10004 10004\n\
bge b55463 0 10008 10004 10008 10004 10008 10004\n\
bge feb55ee3 1 fffc fffc fffc 10004 fffc 10004\n\
bge 7eb55fe3 ffffffffffffffff 10004 10004 10ffe 10004 10ffe 10004\n\
bge 80b55063 80000000 f000 f000 f000 f000 f000 10004\n\
bge b550e3 8000000000000000 10004 10004 10004 10004 10800 10004\n\
bge b55863 7fffffffffffffff 10010 10010 10010 10010 10010 10010\n\
bltu b56463 0 10004 10008 10008 10008 10008 10008\n\
bltu feb56ee3 1 10004 10004 fffc fffc fffc fffc\n\
bltu 7eb56fe3 ffffffffffffffff 10004 10004 10004 10004 10004 10004\n\
bltu 80b56063 80000000 10004 10004 f000 10004 f000 f000\n\
bltu b560e3 8000000000000000 10004 10004 10800 10004 10004 10004\n\
bltu b56863 7fffffffffffffff 10004 10004 10010 10004 10010 10004\n\
bgeu b57463 0 10008 10004 10004 10004 10004 10004\n\
bgeu feb57ee3 1 fffc fffc 10004 10004 10004 10004\n\
bgeu 7eb57fe3 ffffffffffffffff 10ffe 10ffe 10ffe 10ffe 10ffe 10ffe\n\
bgeu 80b57063 80000000 f000 f000 10004 f000 10004 10004\n\
bgeu b570e3 8000000000000000 10800 10800 10004 10800 10800 10800\n\
bgeu b57863 7fffffffffffffff 10010 10010 10004 10010 10004 10010"
}

/// Then what is in x10 and in x12, what comes into x12, and the next address.
pub(crate) fn jumps() -> &'static str {
    "\
jal 66f 0 10004 10000\n\
jal 40066f 0 10004 10004\n\
jal ffdff66f 0 10004 fffc\n\
jal 7ffff66f 0 10004 10fffe\n\
jal 8000066f 0 10004 fffffffffff10000\n\
jal 10066f 0 10004 10800\n\
jalr 50667 10000 10004 10000\n\
jalr 50667 10001 10004 10000\n\
jalr fff50667 10000 10004 fffe\n\
jalr 150667 ffffffffffffffff 10004 0\n\
jalr 80050667 0 10004 fffffffffffff800\n\
jalr 7ff50667 7fffffffffffffff 10004 80000000000007fe\n\
jalr 860667 20000 10004 20008"
}

/// Then what comes into x12.
pub(crate) fn loads() -> &'static str {
    "\
lb 50603 fffffffffffffff1\n\
lb 150603 ffffffffffffffa2\n\
lb 250603 ffffffffffffffb3\n\
lb 350603 44\n\
lb 450603 55\n\
lb 550603 66\n\
lb 650603 77\n\
lb 750603 ffffffffffffff88\n\
lh 51603 ffffffffffffa2f1\n\
lh 251603 44b3\n\
lh 451603 6655\n\
lh 651603 ffffffffffff8877\n\
lw 52603 44b3a2f1\n\
lw 452603 ffffffff88776655\n\
ld 53603 8877665544b3a2f1\n\
lbu 54603 f1\n\
lbu 154603 a2\n\
lbu 254603 b3\n\
lbu 354603 44\n\
lbu 454603 55\n\
lbu 554603 66\n\
lbu 654603 77\n\
lbu 754603 88\n\
lhu 55603 a2f1\n\
lhu 255603 44b3\n\
lhu 455603 6655\n\
lhu 655603 8877\n\
lwu 56603 44b3a2f1\n\
lwu 456603 88776655"
}

/// Then the word behind the store.
pub(crate) fn stores() -> &'static str {
    "\
sb b50023 8877665544b3a2ef\n\
sb b500a3 8877665544b3eff1\n\
sb b50123 8877665544efa2f1\n\
sb b501a3 88776655efb3a2f1\n\
sb b50223 887766ef44b3a2f1\n\
sb b502a3 8877ef5544b3a2f1\n\
sb b50323 88ef665544b3a2f1\n\
sb b503a3 ef77665544b3a2f1\n\
sh b51023 8877665544b3cdef\n\
sh b51123 88776655cdefa2f1\n\
sh b51223 8877cdef44b3a2f1\n\
sh b51323 cdef665544b3a2f1\n\
sw b52023 8877665589abcdef\n\
sw b52223 89abcdef44b3a2f1\n\
sd b53023 123456789abcdef"
}
